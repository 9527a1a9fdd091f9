ghost use Rattle.std.specs.Prelude.{◌≡◌, ◌≤◌, length, drop};
ghost use Rattle.tables.specs.Tables.{with_heap};
ghost use Rattle.tables.specs.Views.{tables_of};
ghost use Rattle.heaps.specs.Levels.{unbind_all, retry};
ghost use Rattle.heaps.specs.LevelLaws.{Stands, HasChoice};

use cells::Cell;
use tables::Memory;

// Goes back to the newest choice point, which stays.
pub fn go_back(memory: &mut Memory)
    requires stands { Stands (tables_of memory.old) }
    requires some { HasChoice (tables_of memory.old) }
    ensures { tables_of memory.new ≡ retry (tables_of memory.old) }
{
    let heap_top = memory.heap_top(0);
    let trail_top = memory.trail_top(0);
    unbind_from(memory, trail_top);
    memory.cut_trail(trail_top);
    memory.cut_heap(heap_top);
    memory.restore_registers();
}

// Makes each cell unbound that the trail names from the entry `top` on.
fn unbind_from(memory: &mut Memory, top: usize)
    requires stands { Stands (tables_of memory.old) }
    requires inside { top ≤ length (tables_of memory.old).trail }
    ensures { tables_of memory.new ≡ with_heap (tables_of memory.old) (unbind_all (tables_of memory.old).heap (drop top (tables_of memory.old).trail)) }
{
    // by number: cells are written while entries are read
    for i in top..memory.trailed() {
        let at = memory.entry(i);
        memory.set_cell(at, Cell::Reference(at as u64));
    }
}
