// The arguments that a functor lacks.
ghost use Rattle.std.specs.Prelude.{◌≡◌, suc, ◌<◌, ◌||◌, nat_le};
ghost use Rattle.tables.specs.Tables.{used};
ghost use Rattle.tables.specs.Views.{tables_of};
ghost use Rattle.heaps.specs.Leads.{heap_of, is_functor};
ghost use Rattle.heaps.specs.Reached.{any_from};
ghost use Rattle.heaps.specs.RuleTests.{lacks_argument};

use super::kinds::is_functor;
use cells::Cell;
use tables::Memory;

// Whether one of the cells after cell i, as many as the arity says, is not in use or holds a functor.
fn any_lacking(memory: &Memory, i: usize, arity: u64) -> bool
    requires { i < used (tables_of memory.now) }
    ensures { result ≡ any_from (suc i) arity (λ j. nat_le (used (tables_of memory.now)) j || is_functor (heap_of (tables_of memory.now).heap j)) }
{
    let others = (memory.used() - i - 1) as u64;
    others < arity || (i + 1..i + 1 + arity as usize).any(|j| is_functor(memory.cell(j)))
}

// Whether the word in cell i is a functor that lacks an argument.
pub fn lacks_argument(memory: &Memory, i: usize, word: Cell) -> bool
    requires { i < used (tables_of memory.now) }
    ensures { result ≡ lacks_argument (heap_of (tables_of memory.now).heap) (used (tables_of memory.now)) i word }
{
    match word {
        Cell::Functor { name: _, arity } => any_lacking(memory, i, arity),
        _ => false,
    }
}
