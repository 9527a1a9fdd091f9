ghost use Rattle.std.specs.Prelude.{◌≡◌, ◌≤◌, true, false, [], ◌∷◌, length, Option, None};
ghost use Rattle.tables.specs.Tables.{Tables};
ghost use Rattle.tables.specs.Views.{tables_of};
ghost use Rattle.heaps.specs.LevelLaws.{Stands, Keeps};
ghost use Rattle.calls.specs.Unifying.{words};
ghost use Rattle.calls.specs.UnifyLaws.{UnifyIso};
ghost use Rattle.unifying.specs.Merging.{MemoRun};
ghost use Rattle.unifying.specs.Bindings.{Noted, Stepped};
ghost use Rattle.unifying.specs.Walking.{Advanced};
ghost use Rattle.unifying.specs.Works.{merges_in, pairs_in, bound_in, Idle};
ghost use Rattle.unifying.specs.Unified.{outcome, Unified};

use super::meeting::meet_ends;
use super::structures::{meet_structures, structures};
use super::work::Work;
use binding::unbind;
use cells::Cell;
use reading::end_of;
use tables::Memory;

// Unifies two words, depth first, left to right, with occurs check. A no leaves the tables as they were.
// No substitution makes the two spelled terms equal, or a most general one has been carried out.
pub fn unify(memory: &mut Memory, left: Cell, right: Cell, work: &mut Work) -> bool
    requires stands { Stands (tables_of memory.old) }
    requires left { Keeps (tables_of memory.old) left }
    requires right { Keeps (tables_of memory.old) right }
    ensures unified { Unified (tables_of memory.old) left right (tables_of memory.new) result }
    ensures iso { UnifyIso }
{
    work.clear();
    let top = memory.trailed();
    let yes = walk(memory, left, right, work);
    if !yes {
        unbind(memory, &mut work.bound, top);
    }
    yes
}

// Unifies two words, and lists the cells that are bound. Bindings made before a no are left in force.
fn walk(memory: &mut Memory, left: Cell, right: Cell, work: &mut Work) -> bool
    requires stands { Stands (tables_of memory.old) }
    requires left { Keeps (tables_of memory.old) left }
    requires right { Keeps (tables_of memory.old) right }
    requires idle { Idle work.old }
    ensures run { MemoRun (tables_of memory.old) [] (words left right ∷ []) (outcome result (tables_of memory.new)) }
    ensures stepped { Stepped (tables_of memory.old) [] (tables_of memory.new) (bound_in work.new) }
{
    if !advance(memory, left, right, work) {
        return false;
    }
    while let Some((i, j)) = work.frames.next() {
        let a = Cell::Reference(i as u64);
        let b = Cell::Reference(j as u64);
        if !advance(memory, a, b, work) {
            return false;
        }
    }
    true
}

// Unifies the ends of two words. The arguments of two structures that are not yet of one class join what is still to be done.
// `room` is broken between a merge and the push of its frame, so it is no invariant.
fn advance(memory: &mut Memory, left: Cell, right: Cell, work: &mut Work) -> bool
    requires stands { Stands (tables_of memory.old) }
    requires left { Keeps (tables_of memory.old) left }
    requires right { Keeps (tables_of memory.old) right }
    requires room { length (pairs_in work.old) ≤ length (merges_in work.old) }
    requires noted { Noted (tables_of memory.old) (bound_in work.old) }
    ensures advanced { Advanced (Option Tables) MemoRun None (tables_of memory.old) (tables_of memory.new) left right (merges_in work.old) (pairs_in work.old) (merges_in work.new) (pairs_in work.new) result }
    ensures stepped { Stepped (tables_of memory.old) (bound_in work.old) (tables_of memory.new) (bound_in work.new) }
{
    let a = end_of(memory, left);
    let b = end_of(memory, right);
    match structures(a, b) {
        Some((p, q)) => meet_structures(memory, p, q, &mut work.classes, &mut work.frames),
        None => meet_ends(memory, a, b, work),
    }
}
