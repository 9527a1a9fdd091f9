// Rules 1 to 3: references, pointers and functors in the heap.
ghost use Rattle.std.specs.Prelude.{◌≡◌, ℕ, ◌<◌, Bool, [], ◌∷◌};
ghost use Rattle.tables.specs.Tables.{used};
ghost use Rattle.tables.specs.Views.{tables_of};
ghost use Rattle.heaps.specs.declared.rule.Rule.TheVariants.{References, Pointers, Arguments};
ghost use Rattle.heaps.specs.RuleTests.{cell_part, parts_of, lowest_line};

use super::lines::{FIRST_CELL_LINE, on_line};
use tables::Memory;
use words::{lacks_argument, stray_pointer, stray_reference};

// The line of the first cell in use that is at fault.
fn cell_line<F: Fn(usize) -> bool>(memory: &Memory, at_fault: F) -> Option<u64>
    ghost fault: { ℕ → Bool }
    requires callable { (i : ℕ) → i < used (tables_of memory.now) → F.pre at_fault i }
    requires gives { (i : ℕ) (b : Bool) → i < used (tables_of memory.now) → F.post at_fault i b → b ≡ fault i }
    ensures { result ≡ lowest_line (cell_part (tables_of memory.now) fault ∷ []) }
{
    let place = (0..memory.used()).position(at_fault);
    on_line(FIRST_CELL_LINE, place)
}

// Rule 1: the line of the first reference that leads wrong.
pub fn first_stray_reference(memory: &Memory) -> Option<u64>
    ensures { result ≡ lowest_line (parts_of (tables_of memory.now) References) }
{
    cell_line(memory, |i| stray_reference(memory, memory.cell(i)))
}

// Rule 2: the line of the first pointer that leads wrong.
pub fn first_stray_pointer(memory: &Memory) -> Option<u64>
    ensures { result ≡ lowest_line (parts_of (tables_of memory.now) Pointers) }
{
    cell_line(memory, |i| stray_pointer(memory, memory.cell(i)))
}

// Rule 3: the line of the first functor that lacks an argument.
pub fn first_lacking_functor(memory: &Memory) -> Option<u64>
    ensures { result ≡ lowest_line (parts_of (tables_of memory.now) Arguments) }
{
    cell_line(memory, |i| lacks_argument(memory, i, memory.cell(i)))
}
