//! Classes of cells that were set equal, as trees with ranks.
#![tactic(auto)]

mod classes;
mod merged;

pub use classes::Classes;
