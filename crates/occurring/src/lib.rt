//! The occurs check, with a visit table that is blank between two checks.
#![tactic(auto)]

mod occurring;
mod visits;

pub use occurring::occurs;
pub use visits::VisitTable;
