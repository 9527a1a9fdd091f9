ghost use Rattle.std.specs.Prelude.{◌≡◌};
ghost use Rattle.images.specs.Faults.{of_line, of_rule, refusal_of, broken_rule, fault_line};

use cells::Refusal;
use heaps::{Fault, Rule};
pub use lines::{LineFault, WordFault};

// Why an image cannot be loaded. Its three cases are the refusals 10, 11 and 12.
#[derive(Clone, Copy, PartialEq, Eq)]
pub enum LoadFault {
    BadShape { line: u64 },
    BadLayout { line: u64 },
    // the tables break a rule; the line is the lowest at fault
    BrokenRule { rule: Rule, line: u64 },
}

impl From<LineFault> for LoadFault {
    ghost from_gives = { λ l f. f ≡ of_line l };

    fn from(fault: LineFault) -> LoadFault {
        match fault {
            LineFault::BadShape { line } => LoadFault::BadShape { line },
            LineFault::BadLayout { line } => LoadFault::BadLayout { line },
        }
    }
}

impl From<Fault> for LoadFault {
    ghost from_gives = { λ r f. f ≡ of_rule r };

    fn from(fault: Fault) -> LoadFault {
        LoadFault::BrokenRule {
            rule: fault.rule,
            line: fault.line,
        }
    }
}

impl LoadFault {
    // The refusal: 10, 11 or 12.
    pub fn refusal(self) -> Refusal
        ensures { result ≡ refusal_of self }
    {
        match self {
            LoadFault::BadShape { .. } => Refusal::BadShape,
            LoadFault::BadLayout { .. } => Refusal::BadLayout,
            LoadFault::BrokenRule { .. } => Refusal::BrokenRule,
        }
    }

    // The broken rule, where it is a rule that is broken.
    pub fn rule(self) -> Option<Rule>
        ensures { result ≡ broken_rule self }
    {
        match self {
            LoadFault::BrokenRule { rule, .. } => Some(rule),
            _ => None,
        }
    }

    // The line at fault.
    pub fn line(self) -> u64
        ensures { result ≡ fault_line self }
    {
        match self {
            LoadFault::BadShape { line }
            | LoadFault::BadLayout { line }
            | LoadFault::BrokenRule { line, .. } => line,
        }
    }
}
