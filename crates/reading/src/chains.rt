ghost use Rattle.std.specs.Prelude.{◌≡◌};
ghost use Rattle.tables.specs.Views.{tables_of};
ghost use Rattle.heaps.specs.Ends.{end};
ghost use Rattle.heaps.specs.LevelLaws.{Stands, Keeps};

use super::words::refers_to;
use cells::Cell;
use tables::Memory;

// The end of the chain of references that the word begins.
pub fn end_of(memory: &Memory, word: Cell) -> Cell
    requires stands { Stands (tables_of memory.now) }
    requires keeps { Keeps (tables_of memory.now) word }
    ensures end { result ≡ end (tables_of memory.now) word }
    ensures keeps { Keeps (tables_of memory.now) result }
{
    let mut at = word;
    while let Cell::Reference(n) = at {
        let next = memory.cell(n as usize);
        if refers_to(next, n) {
            break;
        }
        at = next;
    }
    at
}
