// The ends of two words meet, where they are not both structures.
ghost use Rattle.std.specs.Prelude.{◌≡◌, true, false, List, if◌then◌else◌, None};
ghost use Rattle.cells.specs.Cells.{in_range};
ghost use Rattle.cells.specs.declared.cell.Cell.TheVariants.{Reference};
ghost use Rattle.tables.specs.Stacks.{listed};
ghost use Rattle.tables.specs.Views.{tables_of};
ghost use Rattle.heaps.specs.Leads.{heap_of, unbound};
ghost use Rattle.heaps.specs.Binding.{bind};
ghost use Rattle.heaps.specs.SpellingLaws.{Bindable};
ghost use Rattle.heaps.specs.LevelLaws.{Stands, Keeps};
ghost use Rattle.calls.specs.Unifying.{Pair, stop, go, bind_to};
ghost use Rattle.unifying.specs.Merging.{both_pointers};
ghost use Rattle.unifying.specs.Bindings.{Noted, Stepped, EndsChain, Met};
ghost use Rattle.unifying.specs.Works.{merges_in, pairs_in, bound_in};

use super::work::Work;
use binding::bind;
use cells::Cell;
use occurring::occurs;
use std::cmp::Ordering;
use tables::{Memory, Stack};

// Binds the unbound cell x to the word, and lists it.
// `Noted` is of the bindings of one walk, so it is no invariant of the work space.
fn note_binding(memory: &mut Memory, x: u64, word: Cell, bound: &mut Stack<u16, 4096>)
    requires stands { Stands (tables_of memory.old) }
    requires bindable { Bindable (tables_of memory.old) x word }
    requires range { in_range word ≡ true }
    requires noted { Noted (tables_of memory.old) (listed bound.old) }
    ensures tables { tables_of memory.new ≡ bind (tables_of memory.old) x word }
    ensures stepped { Stepped (tables_of memory.old) (listed bound.old) (tables_of memory.new) (listed bound.new) }
{
    bind(memory, x as usize, word);
    bound.push(x as u16);
}

// Two variables: the higher cell is bound to the lower.
fn meet_variables(memory: &mut Memory, x: u64, y: u64, bound: &mut Stack<u16, 4096>)
    requires stands { Stands (tables_of memory.old) }
    requires left { Keeps (tables_of memory.old) (Reference x) }
    requires right { Keeps (tables_of memory.old) (Reference y) }
    requires left_free { unbound (heap_of (tables_of memory.old).heap) x ≡ true }
    requires right_free { unbound (heap_of (tables_of memory.old).heap) y ≡ true }
    requires noted { Noted (tables_of memory.old) (listed bound.old) }
    ensures met { Met (tables_of memory.old) (tables_of memory.new) (Reference x) (Reference y) true }
    ensures stepped { Stepped (tables_of memory.old) (listed bound.old) (tables_of memory.new) (listed bound.new) }
{
    match x.cmp(&y) {
        Ordering::Less => note_binding(memory, y, Cell::Reference(x), bound),
        Ordering::Greater => note_binding(memory, x, Cell::Reference(y), bound),
        Ordering::Equal => {}
    }
}

// A variable meets a word that is no variable: it is bound, unless it occurs in what the word spells.
fn bind_to(memory: &mut Memory, x: u64, word: Cell, work: &mut Work) -> bool
    requires stands { Stands (tables_of memory.old) }
    requires variable { Keeps (tables_of memory.old) (Reference x) }
    requires free { unbound (heap_of (tables_of memory.old).heap) x ≡ true }
    requires keeps { Keeps (tables_of memory.old) word }
    requires noted { Noted (tables_of memory.old) (bound_in work.old) }
    ensures next { (ps : List Pair) → bind_to (tables_of memory.old) x word ps ≡ (if result then go (tables_of memory.new) ps else stop None) }
    ensures stepped { Stepped (tables_of memory.old) (bound_in work.old) (tables_of memory.new) (bound_in work.new) }
    ensures kept { (merges_in work.new ≡ merges_in work.old) × (pairs_in work.new ≡ pairs_in work.old) }
{
    if occurs(memory, x, word, &mut work.visits) {
        return false;
    }
    note_binding(memory, x, word, &mut work.bound);
    true
}

// The ends of two words, which are not both structures.
pub(crate) fn meet_ends(memory: &mut Memory, a: Cell, b: Cell, work: &mut Work) -> bool
    requires stands { Stands (tables_of memory.old) }
    requires left { Keeps (tables_of memory.old) a }
    requires right { Keeps (tables_of memory.old) b }
    requires left_end { EndsChain (tables_of memory.old) a }
    requires right_end { EndsChain (tables_of memory.old) b }
    requires apart { both_pointers a b ≡ false }
    requires noted { Noted (tables_of memory.old) (bound_in work.old) }
    ensures met { Met (tables_of memory.old) (tables_of memory.new) a b result }
    ensures stepped { Stepped (tables_of memory.old) (bound_in work.old) (tables_of memory.new) (bound_in work.new) }
    ensures kept { (merges_in work.new ≡ merges_in work.old) × (pairs_in work.new ≡ pairs_in work.old) }
{
    // no match on the pair: in its arm (Reference(x), _) no fact says that b is not a reference
    match a {
        Cell::Reference(x) => match b {
            Cell::Reference(y) => {
                meet_variables(memory, x, y, &mut work.bound);
                true
            }
            _ => bind_to(memory, x, b, work),
        },
        _ => match b {
            Cell::Reference(y) => bind_to(memory, y, a, work),
            _ => a == b,
        },
    }
}
