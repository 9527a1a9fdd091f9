//! The first fault of tables: the lowest broken rule, with its lowest line at fault.
#![tactic(auto)]

mod cell_rules;
mod first;
mod lines;
mod register_rule;
mod searches;
mod top_rule;
mod work;

pub use first::check;
pub use work::Work;
