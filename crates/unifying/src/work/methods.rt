ghost use Rattle.std.specs.Prelude.{◌≡◌};
ghost use Rattle.tables.specs.Views.{tables_of};
ghost use Rattle.terms.specs.Terms.{same_tree};
ghost use Rattle.heaps.specs.Spelling.{spell};
ghost use Rattle.heaps.specs.LevelLaws.{Stands, Keeps};
ghost use Rattle.unifying.specs.Works.{Idle};

use super::super::comparing::same;
use super::super::frames::Frames;
use super::Work;
use cells::Cell;
use classes::Classes;
use occurring::VisitTable;
use tables::{Memory, Stack};

impl Work {
    pub fn new() -> Work
        ensures { Idle result }
    {
        Work {
            classes: Classes::new(),
            frames: Frames::new(),
            visits: VisitTable::new(),
            bound: Stack::new(0),
        }
    }

    // Forgets what the last walk left. Only places that it touched are written.
    pub(crate) fn clear(&mut self)
        ensures { Idle self.new }
    {
        self.classes.clear();
        self.frames.clear();
        self.bound.truncate(0);
    }

    // Whether two words spell the same term.
    pub fn same(&mut self, memory: &Memory, left: Cell, right: Cell) -> bool
        requires stands { Stands (tables_of memory.now) }
        requires left { Keeps (tables_of memory.now) left }
        requires right { Keeps (tables_of memory.now) right }
        ensures { result ≡ same_tree (spell (tables_of memory.now).heap left) (spell (tables_of memory.now).heap right) }
    {
        same(memory, left, right, &mut self.classes, &mut self.frames)
    }
}
