// Echoes of a weld inspection, the rules that explain them, and the lines that list them.
#![tactic(auto)]

pub mod echo;
pub mod line;
pub mod rule;

pub use echo::{Echo, Strength, Zone};
pub use line::echo_in;
pub use rule::{Label, RULES, Rule, first_fit, verdict};
