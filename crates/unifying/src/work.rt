ghost use Rattle.std.specs.Prelude.{◌≡◌, []};
ghost use Rattle.occurring.specs.Visits.{visited};

use super::frames::Frames;
use classes::Classes;
use occurring::VisitTable;
use tables::Stack;

mod methods;

// The work space of unifying and comparing: classes of structures already set equal, arguments still to be gone through,
// the visit table of the occurs check, which is blank between two checks, and the cells bound since unifying began.
// 32,776 + 24,584 + 12,296 + 8,200 = 77,856 bytes.
#[derive(Drop)]
pub struct Work {
    pub(crate) classes: Classes,
    pub(crate) frames: Frames,
    pub(crate) visits: VisitTable,
    pub(crate) bound: Stack<u16, 4096>,
    ghost blank: { visited visits ≡ [] },
}
