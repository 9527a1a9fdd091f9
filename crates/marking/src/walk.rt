// The walk from cell to cell.
ghost use Rattle.std.specs.Prelude.{◌≡◌, ℕ, suc, ◌+◌, ◌<◌, ◌≤◌, [], length};
ghost use Rattle.tables.specs.Views.{tables_of};
ghost use Rattle.heaps.specs.Leads.{heap_of, first, many, LeadsBy};
ghost use Rattle.marking.specs.Marking.{ClosedUnder, CellsLead};
ghost use Rattle.marking.specs.Walks.{waiting, total, Noted, Underway, Grown};

use super::pending::Pending;
use cells::Cell;
use marks::Marks;
use reading::leads;
use tables::Memory;

// Marks the cell n, and lets it wait if it was not marked. The marks and the waiting cells are passed apart: a struct of
// both borrows would put one more field before each `old` and `new` of the contracts.
fn note<M: Marks>(n: u64, marks: &mut M, pending: &mut Pending)
    requires cell { n < 4096 }
    requires room { length (waiting pending.old) ≤ total (M.Marks.has marks.old) }
    ensures { Noted (λ k. k ≡ n) (M.Marks.has marks.old) (waiting pending.old) (M.Marks.has marks.new) (waiting pending.new) }
{
    if !marks.marked(n) {
        marks.mark(n);
        pending.cells.push(n as u16);
    }
}

// Marks what the word in the cell `at` leads to.
pub(crate) fn follow<M: Marks>(at: u64, word: Cell, marks: &mut M, pending: &mut Pending)
    requires at { at < 4096 }
    requires inside { (k : ℕ) → LeadsBy at word k → k < 4096 }
    requires room { length (waiting pending.old) ≤ total (M.Marks.has marks.old) }
    ensures { Noted (LeadsBy at word) (M.Marks.has marks.old) (waiting pending.old) (M.Marks.has marks.new) (waiting pending.new) }
{
    let (start, count) = leads(at, word);
    for n in start..start + count {
        note(n, marks, pending);
    }
}

// Looks at each cell that waits, until none does. `CellsLead` is true of some memories only, so it is a clause.
pub(crate) fn finish<M: Marks>(memory: &Memory, marks: &mut M, pending: &mut Pending)
    requires inside { CellsLead (heap_of (tables_of memory.now).heap) }
    requires underway { Underway (heap_of (tables_of memory.now).heap) (M.Marks.has marks.old) (waiting pending.old) }
    ensures closed { ClosedUnder (heap_of (tables_of memory.now).heap) (M.Marks.has marks.new) }
    ensures grown { Grown (heap_of (tables_of memory.now).heap) (M.Marks.has marks.old) (M.Marks.has marks.new) }
    ensures empty { waiting pending.new ≡ [] }
{
    while let Some(at) = pending.cells.pop() {
        let word = memory.cell(at as usize);
        follow(at as u64, word, marks, pending);
    }
}
