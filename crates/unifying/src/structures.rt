// Two structures meet.
ghost use Rattle.std.specs.Prelude.{◌≤◌, length};
ghost use Rattle.cells.specs.declared.cell.Cell.TheVariants.{Pointer};
ghost use Rattle.tables.specs.Views.{tables_of};
ghost use Rattle.heaps.specs.LevelLaws.{Stands, Keeps};
ghost use Rattle.unifying.specs.Merging.{BothStructures};
ghost use Rattle.unifying.specs.Walking.{StructuresMet};
ghost use Rattle.classes.specs.Classes.{merges};
ghost use Rattle.unifying.specs.Frames.{pairs};

use super::frames::{Frame, Frames};
use cells::Cell;
use classes::Classes;
use reading::arity_of;
use tables::Memory;

// Functor cells name the structures. If they have the same functor and are not yet of one class, they are merged and their
// arguments are to be gone through; the answer is no if the functors differ. Classes and frames are lent apart, as to `same`.
// `room` is broken between a merge and the push of its frame, so it is no invariant.
pub(crate) fn meet_structures(
    memory: &Memory,
    p: u64,
    q: u64,
    classes: &mut Classes,
    frames: &mut Frames,
) -> bool
    requires stands { Stands (tables_of memory.now) }
    requires left { Keeps (tables_of memory.now) (Pointer p) }
    requires right { Keeps (tables_of memory.now) (Pointer q) }
    requires room { length (pairs frames.old) ≤ length (merges classes.old) }
    ensures { StructuresMet (tables_of memory.now) p q (merges classes.old) (pairs frames.old) (merges classes.new) (pairs frames.new) result }
{
    if classes.same_class(p as usize, q as usize) {
        return true;
    }
    let functor = memory.cell(p as usize);
    if functor != memory.cell(q as usize) {
        return false;
    }
    classes.merge(p as usize, q as usize);
    frames.push(Frame {
        left: p as u16 + 1,
        right: q as u16 + 1,
        count: arity_of(functor) as u8,
    });
    true
}

// The functor cells of two words that are both pointers.
pub(crate) fn structures(a: Cell, b: Cell) -> Option<(u64, u64)>
    ensures { BothStructures a b result }
{
    match (a, b) {
        (Cell::Pointer(p), Cell::Pointer(q)) => Some((p, q)),
        _ => None,
    }
}
