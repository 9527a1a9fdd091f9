// Marking everything that words reach, with any mark keeper.
#![tactic(auto)]

mod pending;
mod roots;
mod walk;

pub use pending::Pending;
pub use roots::{mark_roots, mark_words};
