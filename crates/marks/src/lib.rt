// Mark keepers: sets of cell numbers that a collector fills while it marks.
// `Marks` is the interface, `ByteMarks` and `BitMarks` are its two implementations.
#![tactic(auto)]

ghost use Rattle.std.specs.Prelude.{◌≡◌, ℕ, ◌≤◌, Bool, false};
ghost use Rattle.marks.specs.Sets.{none, with_cell, count_below};

mod bits;
mod bytes;

pub use bits::BitMarks;
pub use bytes::ByteMarks;

// How many cells the heap has; their numbers are below this.
pub const CELLS: u64 = 4096;

// A keeper means a set of cell numbers, `has`.
// Any number may be passed: one that no cell has is ignored, and is never in the set.
pub trait Marks {
    ghost has: { Self → ℕ → Bool };

    // Empties the set.
    fn clear(&mut self)
        ensures { has self.new ≡ none };

    // Adds the cell n to the set.
    fn mark(&mut self, n: u64)
        ensures { has self.new ≡ with_cell (has self.old) n };

    // Whether n is in the set.
    fn marked(&self, n: u64) -> bool
        ensures { result ≡ has self.now n };

    ghost within: { (keeper : Self) (n : ℕ) → 4096 ≤ n → has keeper n ≡ false };
}

// How many members of the set are below n.
pub fn count_below<M: Marks>(marks: &M, n: u64) -> u64
    ensures { result ≡ count_below (M.Marks.has marks.now) n }
{
    // a loop, since the proof of `filter` and `count` over a range does not close where each number is asked of a trait's method
    let mut count = 0;
    for k in 0..n.min(CELLS) {
        if marks.marked(k) {
            count += 1;
        }
    }
    count
}
