ghost use Rattle.std.specs.Prelude.{◌≡◌, ◌<◌};
ghost use Rattle.heaps.specs.Leads.{first, many, refers_to};
ghost use Rattle.heaps.specs.Spelling.{arity_of};

use cells::Cell;

// Where the word in the cell `at` leads: to so many neighbouring cells from the first on.
// A pair and no range, since a range could not hold the cell of `Reference(u64::MAX)`.
pub fn leads(at: u64, word: Cell) -> (u64, u64)
    requires { at < 4096 }
    ensures first { result.0 ≡ first at word }
    ensures many { result.1 ≡ many word }
{
    match word {
        Cell::Reference(n) | Cell::Pointer(n) => (n, 1),
        Cell::Functor { name: _, arity } => (at + 1, arity),
        Cell::Atom(_) | Cell::Integer(_) => (0, 0),
    }
}

// Whether the word is the reference to cell n.
pub fn refers_to(word: Cell, n: u64) -> bool
    ensures { result ≡ refers_to n word }
{
    word == Cell::Reference(n)
}

// How many arguments a functor has; 0 for any other word.
pub fn arity_of(word: Cell) -> u64
    ensures { result ≡ arity_of word }
{
    match word {
        Cell::Functor { name: _, arity } => arity,
        _ => 0,
    }
}
