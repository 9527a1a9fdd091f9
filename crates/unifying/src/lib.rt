//! Unifying and comparing words whose terms share structure: pairs of structures already set equal are not gone through again.
//! Definitions are in `specs/`, laws in `proofs/`. Each function states laws in its contract, so that callers can cite them.
#![tactic(auto)]

ghost use Rattle.std.specs.Prelude.{◌≡◌, true};
ghost use Rattle.unifying.specs.Laws.{MemoRight, SameRight, MergesFewer};

mod comparing;
mod frames;
mod meeting;
mod structures;
mod walking;
mod work;

pub use binding::{bind, unbind};
pub use classes::Classes;
pub use comparing::same;
pub use frames::Frames;
pub use occurring::{VisitTable, occurs};
pub use reading::end_of;
pub use walking::unify;
pub use work::Work;

/// Unifying and comparing with merges have the results that they have without, and there are fewer merges than cells.
pub fn merging_stands() -> bool
    ensures unifies { MemoRight }
    ensures compares { SameRight }
    ensures fewer { MergesFewer }
    ensures answer { result ≡ true }
{
    true // The laws of merging.
}
