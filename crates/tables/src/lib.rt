// The fixed memory of a store: heap, trail, choice points and registers.
#![tactic(auto)]

pub mod memory;
pub mod stack;
pub mod usage;

pub use memory::{ChoicePoint, Memory};
pub use stack::Stack;
pub use usage::Usage;
