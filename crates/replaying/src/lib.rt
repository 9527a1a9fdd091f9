//! Lists of calls: what a line asks for, and carrying it out on one store.
//! The lines and the answers are in docs/REPLAY.md, their definitions in `specs/`.
#![tactic(auto)]

pub mod bench;
pub mod parsing;
pub mod reply;
pub mod request;

pub use bench::Bench;
pub use parsing::parse;
pub use reply::Reply;
pub use request::{Entry, Request};
