// Rules 5, 7 and 8: the places that the searches of `trails` and `cycles` find, as lines.
// Each is one expression; a function for the three would take both parts of it.
ghost use Rattle.std.specs.Prelude.{◌≡◌};
ghost use Rattle.tables.specs.Views.{tables_of};
ghost use Rattle.heaps.specs.declared.rule.Rule.TheVariants.{Trail, Cycles, Levels};
ghost use Rattle.heaps.specs.RuleTests.{parts_of, lowest_line};

use super::lines::{FIRST_CELL_LINE, heap_top_line, on_line, trail_line};
use cycles::{CycleWork, first_on_cycle};
use marks::Marks;
use tables::Memory;
use trails::{first_leak, first_stray_entry};

// Rule 5: the line of the first trail entry that names a wrong cell, or the same cell as an earlier one.
pub fn entry_line<M: Marks>(memory: &Memory, named: &mut M) -> Option<u64>
    ensures { result ≡ lowest_line (parts_of (tables_of memory.now) Trail) }
{
    on_line(trail_line(memory), first_stray_entry(memory, named))
}

// Rule 7: the line of the first cell on a cycle.
pub fn cycle_line(memory: &Memory, work: &mut CycleWork) -> Option<u64>
    ensures { result ≡ lowest_line (parts_of (tables_of memory.now) Cycles) }
{
    on_line(FIRST_CELL_LINE, first_on_cycle(memory, work))
}

// Rule 8: the line of the heap top of the oldest choice point that sees past it.
pub fn level_line<M: Marks>(memory: &Memory, undone: &mut M) -> Option<u64>
    ensures { result ≡ lowest_line (parts_of (tables_of memory.now) Levels) }
{
    on_line(heap_top_line(memory), first_leak(memory, undone))
}
