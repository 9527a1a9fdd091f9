ghost use Rattle.std.specs.Prelude.{◌≡◌};
ghost use Rattle.tables.specs.Views.{tables_of};
ghost use Rattle.heaps.specs.LevelLaws.{Stands};
ghost use Rattle.calls.specs.Steps.{argument};

use cells::Cell;
use reading::{arity_of, end_of};
use tables::Memory;

// The cell of argument i of the structure at Xs's end, counted from 1.
pub fn argument(memory: &Memory, s: u64, i: u64) -> Option<usize>
    requires { Stands (tables_of memory.now) }
    ensures { result ≡ argument (tables_of memory.now) s i }
{
    if s > 7 {
        return None;
    }
    let end = end_of(memory, memory.register(s as usize));
    if let Cell::Pointer(n) = end {
        let arity = arity_of(memory.cell(n as usize));
        if 0 < i && i <= arity {
            return Some((n + i) as usize);
        }
    }
    None
}
