//! The lines of an image: handing them out, and reading the place that a line fills.
//! The format is in docs/IMAGES.md, its definition in `specs/Words.antt` and `specs/Lines.antt`.
#![tactic(auto)]

pub mod fault;
pub mod item;
pub mod line;
pub mod reader;
mod word;

pub use fault::{LineFault, WordFault};
pub use item::Item;
pub use line::{Line, cut};
pub use reader::Reader;
pub use word::{integer, natural, no_leading_zero};
