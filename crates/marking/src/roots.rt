// Marking from registers and saved registers.
ghost use Rattle.std.specs.Prelude.{◌≡◌, []};
ghost use Rattle.tables.specs.Views.{tables_of};
ghost use Rattle.heaps.specs.Leads.{heap_of};
ghost use Rattle.heaps.specs.Reached.{roots};
ghost use Rattle.marking.specs.Marking.{ClosedUnder, CellsLead, WordsLead, MarkedAll, MarksReached};
ghost use Rattle.marking.specs.Walks.{waiting};

use super::pending::Pending;
use super::walk::{finish, follow};
use cells::Cell;
use marks::Marks;
use tables::Memory;

// Adds all that the words reach to the set. `CellsLead` is true of some memories only, so it is a clause, here and below.
pub fn mark_words<M: Marks>(memory: &Memory, words: &[Cell], marks: &mut M, pending: &mut Pending)
    requires cells { CellsLead (heap_of (tables_of memory.now).heap) }
    requires words { WordsLead words.now }
    requires closed { ClosedUnder (heap_of (tables_of memory.now).heap) (M.Marks.has marks.old) }
    ensures marked { MarkedAll (heap_of (tables_of memory.now).heap) words.now (M.Marks.has marks.old) (M.Marks.has marks.new) }
    ensures closed { ClosedUnder (heap_of (tables_of memory.now).heap) (M.Marks.has marks.new) }
    ensures empty { waiting pending.new ≡ [] }
{
    pending.cells.truncate(0);
    for word in words {
        follow(0, *word, marks, pending);
    }
    finish(memory, marks, pending);
}

// Marks exactly the reached cells: the registers first, then each choice point from the newest on.
pub fn mark_roots<M: Marks>(memory: &Memory, marks: &mut M, pending: &mut Pending)
    requires cells { CellsLead (heap_of (tables_of memory.now).heap) }
    requires words { WordsLead (roots (tables_of memory.now)) }
    ensures marked { MarksReached (tables_of memory.now) (M.Marks.has marks.new) }
    ensures closed { ClosedUnder (heap_of (tables_of memory.now).heap) (M.Marks.has marks.new) }
    ensures empty { waiting pending.new ≡ [] }
{
    marks.clear();
    mark_words(memory, &memory.registers(), marks, pending);
    for k in 0..memory.depth() {
        mark_words(memory, &memory.saved_registers(k), marks, pending);
    }
}
