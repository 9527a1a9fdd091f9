// The mark keeper with a byte for each cell: 4,096 bytes, and no shift or mask on the way to a mark.

ghost use Rattle.std.specs.Prelude.{◌≡◌};
ghost use Rattle.marks.specs.Sets.{none};
ghost use Rattle.marks.specs.Keepers.{byte_set};
ghost use Rattle.std.proofs.Common.{rules};

use crate::{CELLS, Marks};

// The cell n is in the set where byte n is not 0.
#[derive(Drop)]
pub struct ByteMarks {
    cells: [u8; CELLS as usize],
}

impl ByteMarks {
    // The empty set.
    pub fn new() -> Self
        ensures { byte_set result.cells ≡ none }
    {
        ByteMarks {
            cells: [0; CELLS as usize],
        }
    }
}

impl Marks for ByteMarks {
    ghost has = { λ keeper. byte_set keeper.cells };

    ghost within = { Prim.search rules };

    fn clear(&mut self) {
        self.cells = [0; CELLS as usize];
    }

    fn mark(&mut self, n: u64) {
        if n < CELLS {
            self.cells[n as usize] = 1;
        }
    }

    fn marked(&self, n: u64) -> bool {
        n < CELLS && self.cells[n as usize] != 0
    }
}
