// The occurs check.
ghost use Rattle.std.specs.Prelude.{◌≡◌, ℕ, ◌<◌, [], replicate};
ghost use Rattle.tables.specs.Views.{tables_of};
ghost use Rattle.terms.specs.Terms.{occurs};
ghost use Rattle.heaps.specs.Leads.{first, many, LeadsBy};
ghost use Rattle.heaps.specs.Spelling.{spell};
ghost use Rattle.heaps.specs.LevelLaws.{Stands, Keeps};
ghost use Rattle.occurring.specs.Visits.{visited, visit_all};

use super::visits::{VisitTable, Visits};
use cells::Cell;
use reading::{leads, refers_to};
use tables::Memory;

// Whether variable x occurs in what the word spells. Each cell that the word reaches is visited at most once.
// That the table is blank before and after is an invariant of `Work`; here the table is lent alone.
pub fn occurs(memory: &Memory, x: u64, word: Cell, table: &mut VisitTable) -> bool
    requires stands { Stands (tables_of memory.now) }
    requires keeps { Keeps (tables_of memory.now) word }
    requires empty { visited table.old ≡ [] }
    ensures answer { result ≡ occurs x (spell (tables_of memory.now).heap word) }
    ensures blank { table.new.bytes ≡ replicate 4096 0 }
    ensures empty { visited table.new ≡ [] }
{
    let seen = Visits { table };
    follow(0, word, seen.table);
    // the list grows while it is walked, so it is walked by number
    let mut place = 0;
    while place < seen.table.len() {
        let at = seen.table.at(place);
        let held = memory.cell(at as usize);
        if at == x {
            return refers_to(held, x);
        }
        follow(at, held, seen.table);
        place += 1;
    }
    false
}

// Visits what the word in the cell `at` leads to: `follow` of marking notes in any order and asks for room, and
// here the contract is the order of the visits, so each has its own.
fn follow(at: u64, word: Cell, table: &mut VisitTable)
    requires at { at < 4096 }
    requires inside { (k : ℕ) → LeadsBy at word k → k < 4096 }
    ensures { visited table.new ≡ visit_all (visited table.old) (first at word) (many word) }
{
    let (start, count) = leads(at, word);
    for n in start..start + count {
        table.visit(n);
    }
}
