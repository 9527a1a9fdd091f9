//! Whether a call is accepted, and with what it is refused, in the order of the refusals' numbers.
#![tactic(auto)]

mod arguments;
mod half;
mod refusals;

pub use arguments::argument;
pub use half::Half;
pub use refusals::admit;
