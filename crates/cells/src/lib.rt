// The cells of the store, the words that hold them, and the numbers of refusals and answers.
#![tactic(auto)]

pub mod answer;
pub mod cell;
pub mod refusal;

pub use answer::{Seen, Verdict};
pub use cell::Cell;
pub use refusal::Refusal;
