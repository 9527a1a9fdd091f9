ghost use Rattle.calls.specs.Whole.{Whole};
ghost use Rattle.refusing.specs.States.{state_of};

use calls::Draft;
use refusing::Half;
use tables::Memory;
pub use tables::Usage;
use unifying::Work;

mod choices;
mod comparing;
mod looking;
mod making;
mod registers;
mod structures;

// Tables that keep the rules, the structure that is half made, if there is one, and spare tables that same and unify work in.
// Each call says itself that a refusal changes nothing: that is a fact of a store before and after, which no invariant holds.
#[derive(Drop)]
pub struct Store {
    memory: Memory,
    half: Option<Half>,
    work: Work,
    ghost whole: { ∥ Whole (state_of memory half) ∥₁ },
}

// What start hands out for a structure that is half made. Only done and void spend it.
pub struct Slip {
    draft: Draft,
}
