// Tests of marking: both mark keepers go through one list of memories.
#![tactic(auto)]

mod inside;
#[cfg(test)]
mod tests;
