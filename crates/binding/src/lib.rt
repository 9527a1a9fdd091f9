//! Binding cells, giving bindings up, and going back to a choice point.
#![tactic(auto)]

mod binding;
mod undoing;

pub use binding::{bind, unbind};
pub use undoing::go_back;
