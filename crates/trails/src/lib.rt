//! Rules 5 and 8: trail entries, and what choice points see once entries are undone.
//! Both searches keep a set of the cells that trail entries name.
#![tactic(auto)]

mod entries;
mod levels;

pub use entries::first_stray_entry;
pub use levels::first_leak;
