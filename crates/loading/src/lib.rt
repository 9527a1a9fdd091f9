//! Loading an image: its layout is read, and then the table rules are checked.
#![tactic(auto)]

mod checked;
mod described;
mod numbers;

pub use checked::load;
pub use described::{Refused, describe, describe_whole};
pub use numbers::Numbers;
