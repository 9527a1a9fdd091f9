// The store and its calls.
#![tactic(auto, using(crate::proofs::Keeping::stands, crate::proofs::Keeping::register_keeps))]

pub mod store;

pub use store::{Slip, Store, Usage};
