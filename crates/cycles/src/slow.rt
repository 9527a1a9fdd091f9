// The slow search for cells on a cycle, for ranks that show nothing: it gathers the cells that lead to a cell, round by round.
// Memory and set are both lent, and any mark keeper may be the set.
ghost use Rattle.std.specs.Prelude.{◌≡◌, ◌<◌, true, false, ◌⊎◌};
ghost use Rattle.tables.specs.Tables.{used};
ghost use Rattle.tables.specs.Views.{tables_of};
ghost use Rattle.heaps.specs.Leads.{heap_of};
ghost use Rattle.heaps.specs.RuleTests.{on_cycle};
ghost use Rattle.cycles.specs.Spans.{LeadTo, HasWithin, LeadsInto, LeadsPast, Round, first_on_cycle};

use super::leads::leads;
use marks::Marks;
use tables::Memory;

// Whether cell i leads to a member of the set.
fn leads_into<M: Marks>(memory: &Memory, i: usize, members: &M) -> bool
    ensures found { result ≡ true → LeadsInto (heap_of (tables_of memory.now).heap) i (M.Marks.has members.now) }
    ensures missed { result ≡ false → LeadsPast (heap_of (tables_of memory.now).heap) (used (tables_of memory.now)) i (M.Marks.has members.now) }
{
    leads(memory, i).any(|j| members.marked(j as u64))
}

// Whether cell i is no member, and leads to one.
fn joins<M: Marks>(memory: &Memory, i: usize, members: &M) -> bool
    ensures found { result ≡ true → LeadsInto (heap_of (tables_of memory.now).heap) i (M.Marks.has members.now) }
    ensures missed { result ≡ false → (M.Marks.has members.now i ≡ true) ⊎ LeadsPast (heap_of (tables_of memory.now).heap) (used (tables_of memory.now)) i (M.Marks.has members.now) }
{
    !members.marked(i as u64) && leads_into(memory, i, members)
}

// Adds each cell that leads to a member. Tells whether there was one that was no member.
fn spread_once<M: Marks>(memory: &Memory, members: &mut M) -> bool
    ensures round { Round (heap_of (tables_of memory.now).heap) (used (tables_of memory.now)) (used (tables_of memory.now)) (M.Marks.has members.old) (M.Marks.has members.new) }
    ensures same { result ≡ false → M.Marks.has members.new ≡ M.Marks.has members.old }
{
    let mut more = false;
    // the set grows from cell to cell, so this is no `any`
    for i in 0..memory.used() {
        if joins(memory, i, members) {
            members.mark(i as u64);
            more = true;
        }
    }
    more
}

// Gathers the cells that lead to a cell, and that cell.
fn gather<M: Marks>(memory: &Memory, cell: usize, members: &mut M)
    requires { cell < used (tables_of memory.now) }
    ensures sound { LeadTo (heap_of (tables_of memory.now).heap) cell (M.Marks.has members.new) }
    ensures whole { HasWithin (heap_of (tables_of memory.now).heap) cell (used (tables_of memory.now)) (M.Marks.has members.new) }
{
    members.clear();
    members.mark(cell as u64);
    // a bound: each round but the last adds a cell
    for _turn in 0..memory.used() {
        if !spread_once(memory, members) {
            return;
        }
    }
}

// Whether a cell leads to one of those that lead to it.
fn lies_on_cycle<M: Marks>(memory: &Memory, cell: usize, members: &mut M) -> bool
    requires { cell < used (tables_of memory.now) }
    ensures { result ≡ on_cycle (heap_of (tables_of memory.now).heap) (used (tables_of memory.now)) cell }
{
    gather(memory, cell, members);
    leads_into(memory, cell, members)
}

// The first cell on a cycle.
pub fn first_gathered<M: Marks>(memory: &Memory, members: &mut M) -> Option<usize>
    ensures { result ≡ first_on_cycle (tables_of memory.now) }
{
    // with `find` the proof does not close: the set is filled anew for each cell
    for cell in 0..memory.used() {
        if lies_on_cycle(memory, cell, members) {
            return Some(cell);
        }
    }
    None
}
