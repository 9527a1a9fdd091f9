// The calls of a store and their answers.
#![tactic(auto)]

pub mod answering;
pub mod keeping;
pub mod unifying;

use cells::{Refusal, Seen, Verdict};
use tables::Usage;

// What a slip says of a half-made structure: its functor, and how many arguments are missing.
#[derive(Clone, Copy, PartialEq, Eq)]
pub struct Draft {
    pub name: u64,
    pub arity: u64,
    pub missing: u64,
}

// A call with its arguments. D, S and T are registers; numbers of any size can be named.
#[derive(Clone, Copy)]
pub enum Call {
    Var { d: u64 },
    Atom { d: u64, n: u64 },
    Int { d: u64, z: i64 },
    Move { d: u64, s: u64 },
    Look { s: u64 },
    Arg { d: u64, s: u64, i: u64 },
    Same { s: u64, t: u64 },
    Unify { s: u64, t: u64 },
    Open,
    Retry,
    Last,
    Cut { k: u64 },
    Start { name: u64, arity: u64 },
    Put { slip: Draft, s: u64 },
    Hole { slip: Draft },
    Done { slip: Draft, d: u64 },
    Void { slip: Draft },
    Collect,
    Usage,
}

// What a call answers. A call with nothing to tell answers Nothing. A refusal is one answer among others, and no error, since
// runs compare lists of answers; the calls of a store themselves return a Result.
#[derive(Clone, Copy)]
pub enum Answer {
    Nothing,
    Refused(Refusal),
    Sees(Seen),
    Tells(Verdict),
    Hands(Draft),
    Counts(Usage),
}
