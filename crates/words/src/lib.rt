//! What a word of the tables is, and whether it leads wrong.
#![tactic(auto)]

mod arguments;
mod kinds;
mod stray;

pub use arguments::lacks_argument;
pub use kinds::is_functor;
pub use stray::{stray_pointer, stray_reference, stray_word};
