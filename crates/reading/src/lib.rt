//! Reading words: where they lead, and what their chains end at.
#![tactic(auto)]

mod chains;
mod words;

pub use chains::end_of;
pub use words::{arity_of, leads, refers_to};
