// The mark keeper with a bit for each cell: 64 words of 64 bits, which is 512 bytes.

ghost use Rattle.std.specs.Prelude.{◌≡◌};
ghost use Rattle.marks.specs.Sets.{none};
ghost use Rattle.marks.specs.Keepers.{bit_set};
ghost use Rattle.std.proofs.Common.{rules};

use crate::{CELLS, Marks};

// The cell n is in the set where bit n % 64 of word n / 64 is 1.
#[derive(Drop)]
pub struct BitMarks {
    words: [u64; 64],
}

impl BitMarks {
    // The empty set.
    pub fn new() -> Self
        ensures { bit_set result.words ≡ none }
    {
        BitMarks { words: [0; 64] }
    }
}

impl Marks for BitMarks {
    ghost has = { λ keeper. bit_set keeper.words };

    ghost within = { Prim.search rules };

    fn clear(&mut self) {
        self.words = [0; 64];
    }

    fn mark(&mut self, n: u64) {
        if n < CELLS {
            self.words[(n / 64) as usize] |= 1 << (n % 64);
        }
    }

    fn marked(&self, n: u64) -> bool {
        n < CELLS && (self.words[(n / 64) as usize] >> (n % 64)) % 2 == 1
    }
}
