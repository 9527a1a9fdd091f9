//! The text of tables, and reading it.
//! The format is in docs/IMAGES.md, its definition in `specs/Text.antt` and `specs/Reading.antt`.
#![tactic(auto)]

mod draft;
pub mod fault;
mod reading;

pub use fault::{LineFault, LoadFault, WordFault};
pub use reading::{images_are_texts, read};
