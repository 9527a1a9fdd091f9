// Binding cells, and making them unbound again.
ghost use Rattle.std.specs.Prelude.{◌≡◌, ◌<◌, ◌≤◌, true, []};
ghost use Rattle.cells.specs.Cells.{in_range};
ghost use Rattle.tables.specs.Tables.{used};
ghost use Rattle.tables.specs.Stacks.{listed};
ghost use Rattle.tables.specs.Views.{tables_of};
ghost use Rattle.heaps.specs.Lists.{Each};
ghost use Rattle.heaps.specs.Binding.{trailed, bind};
ghost use Rattle.heaps.specs.SpellingLaws.{Bindable};
ghost use Rattle.heaps.specs.LevelLaws.{Stands};
ghost use Rattle.binding.specs.Unbinding.{unbind_to};

use cells::Cell;
use tables::{Memory, Stack};

// Binds the unbound cell x to the word, and records it on the trail where a choice point can undo it.
pub fn bind(memory: &mut Memory, x: usize, word: Cell)
    requires stands { Stands (tables_of memory.old) }
    requires bindable { Bindable (tables_of memory.old) x word }
    requires range { in_range word ≡ true }
    ensures { tables_of memory.new ≡ bind (tables_of memory.old) x word }
{
    if is_trailed(memory, x) {
        memory.push_entry(x);
    }
    memory.set_cell(x, word);
}

// Whether a choice point exists and the cell is below the newest one's heap top.
fn is_trailed(memory: &Memory, x: usize) -> bool
    ensures { result ≡ trailed (tables_of memory.now).choices x }
{
    memory.depth() > 0 && x < memory.heap_top(0)
}

// Makes the listed cells unbound again, from the newest binding to the oldest, and drops the trail entries from `top` on.
pub fn unbind(memory: &mut Memory, bound: &mut Stack<u16, 4096>, top: usize)
    requires fits { used (tables_of memory.old) ≤ 4096 }
    requires inside { Each (λ c. c < used (tables_of memory.old)) (listed bound.old) }
    ensures tables { tables_of memory.new ≡ unbind_to (tables_of memory.old) (listed bound.old) top }
    ensures empty { listed bound.new ≡ [] }
{
    while let Some(at) = bound.pop() {
        memory.set_cell(at as usize, Cell::Reference(at as u64));
    }
    memory.cut_trail(top);
}
