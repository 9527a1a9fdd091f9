//! Rule 7: the lowest cell on a cycle, in time linear in the cells.
#![tactic(auto)]

mod certificate;
mod first;
mod leads;
mod slow;
mod walk;

pub use first::{CycleWork, first_on_cycle};
