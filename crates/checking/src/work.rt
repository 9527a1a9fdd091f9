// The work space of the searches.
ghost use Rattle.checking.specs.Works.{New};

use cycles::CycleWork;
use marks::BitMarks;

// What it holds before a call does not matter. It takes 34,320 bytes:
// 512 for the cells that trail entries name, 512 for the cells that a choice point sees unbound,
// and for cycles notes of six bytes for each cell, a list of 8,200 bytes, two numbers and a set of 512 bytes.
#[derive(Drop)]
pub struct Work {
    pub(crate) named: BitMarks,
    pub(crate) undone: BitMarks,
    pub(crate) cycles: CycleWork,
}

impl Work {
    pub fn new() -> Work
        ensures { New result }
    {
        Work {
            named: BitMarks::new(),
            undone: BitMarks::new(),
            cycles: CycleWork::new(),
        }
    }
}
