// What a word is.
ghost use Rattle.std.specs.Prelude.{◌≡◌};
ghost use Rattle.heaps.specs.Leads.{is_functor};

use cells::Cell;

pub fn is_functor(word: Cell) -> bool
    ensures { result ≡ is_functor word }
{
    matches!(word, Cell::Functor { .. })
}
