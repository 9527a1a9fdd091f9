ghost use Rattle.std.specs.Prelude.{◌≡◌, ◌≤◌, length};
ghost use Rattle.tables.specs.Views.{tables_of};
ghost use Rattle.terms.specs.Terms.{same_tree};
ghost use Rattle.heaps.specs.Spelling.{spell};
ghost use Rattle.heaps.specs.LevelLaws.{Stands, Keeps};
ghost use Rattle.classes.specs.Classes.{merges};
ghost use Rattle.unifying.specs.Frames.{pairs};
ghost use Rattle.unifying.specs.Comparing.{Compared};

use super::frames::Frames;
use super::structures::{meet_structures, structures};
use cells::Cell;
use classes::Classes;
use reading::end_of;
use tables::Memory;

// Whether two words spell the same term. Classes and frames are work space: what they held is cleared.
// No `Work`: comparing needs neither visits nor bindings.
pub fn same(
    memory: &Memory,
    left: Cell,
    right: Cell,
    classes: &mut Classes,
    frames: &mut Frames,
) -> bool
    requires stands { Stands (tables_of memory.now) }
    requires left { Keeps (tables_of memory.now) left }
    requires right { Keeps (tables_of memory.now) right }
    ensures { result ≡ same_tree (spell (tables_of memory.now).heap left) (spell (tables_of memory.now).heap right) }
{
    classes.clear();
    frames.clear();
    if !compare(memory, left, right, classes, frames) {
        return false;
    }
    // `walk` has this loop with another step: one function for both would take the step as a closure over a memory that one of
    // them changes (not tried)
    while let Some((i, j)) = frames.next() {
        let a = Cell::Reference(i as u64);
        let b = Cell::Reference(j as u64);
        if !compare(memory, a, b, classes, frames) {
            return false;
        }
    }
    true
}

// Compares two words. The arguments of two structures that are not yet of one class join what is still to be compared.
// `advance` unifies in the same steps: one function for both would take what is done with other ends as a closure over a memory
// that one of them changes (not tried). `room` is broken between a merge and the push of its frame, so it is no invariant.
fn compare(
    memory: &Memory,
    left: Cell,
    right: Cell,
    classes: &mut Classes,
    frames: &mut Frames,
) -> bool
    requires stands { Stands (tables_of memory.now) }
    requires left { Keeps (tables_of memory.now) left }
    requires right { Keeps (tables_of memory.now) right }
    requires room { length (pairs frames.old) ≤ length (merges classes.old) }
    ensures { Compared (tables_of memory.now) left right (merges classes.old) (pairs frames.old) (merges classes.new) (pairs frames.new) result }
{
    let a = end_of(memory, left);
    let b = end_of(memory, right);
    match structures(a, b) {
        Some((p, q)) => meet_structures(memory, p, q, classes, frames),
        None => a == b,
    }
}
