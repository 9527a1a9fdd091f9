// Rule 5: trail entries.
ghost use Rattle.std.specs.Prelude.{◌≡◌, ◌||◌};
ghost use Rattle.tables.specs.Tables.{used};
ghost use Rattle.tables.specs.Views.{tables_of};
ghost use Rattle.heaps.specs.Leads.{heap_of};
ghost use Rattle.heaps.specs.RuleTests.{misnames};
ghost use Rattle.trails.specs.Firsts.{first_stray_entry};

use cells::Cell;
use marks::Marks;
use reading::refers_to;
use tables::Memory;
use words::is_functor;

// Whether a trail entry names a cell that is not in use, unbound or a functor.
fn misnamed(memory: &Memory, entry: usize) -> bool
    ensures { result ≡ misnames (heap_of (tables_of memory.now).heap) (used (tables_of memory.now)) entry }
{
    let word = memory.cell(entry);
    memory.used() <= entry || refers_to(word, entry as u64) || is_functor(word)
}

// Whether a trail entry names a wrong cell, or one of the set.
fn stray_entry<M: Marks>(memory: &Memory, entry: usize, named: &M) -> bool
    ensures { result ≡ (misnames (heap_of (tables_of memory.now).heap) (used (tables_of memory.now)) entry || M.Marks.has named.now entry) }
{
    misnamed(memory, entry) || named.marked(entry as u64)
}

// Rule 5: the first trail entry that names a wrong cell, or the same cell as an earlier one.
// The cells that were named so far are kept in the set.
pub fn first_stray_entry<M: Marks>(memory: &Memory, named: &mut M) -> Option<usize>
    ensures { result ≡ first_stray_entry (tables_of memory.now) }
{
    named.clear();
    // with `find` the proof does not close: the set grows from turn to turn
    for j in 0..memory.trailed() {
        let entry = memory.entry(j);
        if stray_entry(memory, entry, named) {
            return Some(j);
        }
        named.mark(entry as u64);
    }
    None
}
