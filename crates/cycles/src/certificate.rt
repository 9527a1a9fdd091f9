// Ranks of cells show which cells lie on no cycle, and a way back shows that a cell lies on one.
// Memory and walk are both lent, so they are no methods of one of them. The clauses name the heap and the number of cells in
// use apart, as the definitions of the rules do.
ghost use Rattle.std.specs.Prelude.{◌≡◌, ◌<◌, ◌≤◌, true, false, MatchOption};
ghost use Rattle.tables.specs.Tables.{used};
ghost use Rattle.tables.specs.Views.{tables_of};
ghost use Rattle.heaps.specs.Leads.{heap_of, Way};
ghost use Rattle.cycles.specs.Spans.{NoneBelow, RisesBefore, NoneFalls};
ghost use Rattle.cycles.specs.Works.{rank_of};

use super::leads::{leads, leads_to};
use super::walk::Walk;
use tables::Memory;

// Whether cell i leads to a cell in use of a rank below the limit.
fn leads_below(memory: &Memory, walk: &Walk, i: usize, limit: usize) -> bool
    ensures { result ≡ false → NoneBelow (heap_of (tables_of memory.now).heap) (used (tables_of memory.now)) (rank_of walk.now) i limit }
{
    leads(memory, i).any(|j| walk.rank(j) < limit)
}

// The first cell that does not only lead to cells of a higher rank.
pub fn first_level(memory: &Memory, walk: &Walk) -> Option<usize>
    ensures { MatchOption result
        (RisesBefore (heap_of (tables_of memory.now).heap) (used (tables_of memory.now)) (rank_of walk.now) (used (tables_of memory.now)))
        (λ i. (i < used (tables_of memory.now)) × RisesBefore (heap_of (tables_of memory.now).heap) (used (tables_of memory.now)) (rank_of walk.now) i) }
{
    (0..memory.used()).find(|&i| leads_below(memory, walk, i, walk.rank(i) + 1))
}

// Whether no cell leads to one of a lower rank.
pub fn none_falls(memory: &Memory, walk: &Walk) -> bool
    ensures { result ≡ true → NoneFalls (heap_of (tables_of memory.now).heap) (used (tables_of memory.now)) (rank_of walk.now) }
{
    !(0..memory.used()).any(|i| leads_below(memory, walk, i, walk.rank(i)))
}

// Whether the way back from a cell, from each cell to the one before it, comes round to that cell.
pub fn comes_round(memory: &Memory, walk: &Walk, cell: usize) -> bool
    ensures { result ≡ true → Way (heap_of (tables_of memory.now).heap) cell cell }
{
    let mut at = cell;
    // the bound ends a way that comes round elsewhere
    for _turn in 0..memory.used() {
        let before = walk.parent(at);
        if !leads_to(memory, before, at) {
            return false;
        }
        if before == cell {
            return true;
        }
        at = before;
    }
    false
}
