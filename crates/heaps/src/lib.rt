//! What heaps mean: where cells lead, what they spell and reach, undoing, and the rules of tables.
//! Definitions are in `specs/`, laws in `proofs/`. Each function states laws in its contract, so that callers can cite them.
#![tactic(auto)]

pub mod levels;
pub mod reached;
pub mod rule;
pub mod rule_tests;
pub mod spelling;

pub use rule::{Fault, Rule};
