ghost use Rattle.std.specs.Prelude.{◌≡◌};
ghost use Rattle.cells.specs.Answers.{case_of, value_of, verdict, verdict_number};

// What look sees at the end of a register's chain of references.
#[derive(Clone, Copy, PartialEq, Eq, Debug)]
pub enum Seen {
    Variable,
    Atom(u32),
    Integer(i32),
    // the functor's value, name × 64 + arity
    Structure(u32),
}

impl Seen {
    // The number of the case, by which callers know it.
    pub fn case(self) -> u8
        ensures { result ≡ case_of self }
    {
        match self {
            Seen::Variable => 0,
            Seen::Atom(_) => 1,
            Seen::Integer(_) => 2,
            Seen::Structure(_) => 3,
        }
    }

    // The value that goes with the case; 0 for a variable, as callers know it.
    pub fn value(self) -> i64
        ensures { result ≡ value_of self }
    {
        match self {
            Seen::Variable => 0,
            Seen::Atom(n) => n as i64,
            Seen::Integer(z) => z as i64,
            Seen::Structure(v) => v as i64,
        }
    }
}

// What same and unify tell: the answers no and yes with their numbers. The calls of a store answer a bool.
#[derive(Clone, Copy, PartialEq, Eq, Debug)]
pub enum Verdict {
    No = 0,
    Yes = 1,
}

impl From<bool> for Verdict {
    ghost from_gives = { λ b v. v ≡ verdict b };

    fn from(holds: bool) -> Verdict {
        if holds { Verdict::Yes } else { Verdict::No }
    }
}

impl Verdict {
    // The number by which callers know the verdict. A method, since its name says what the number is.
    pub fn number(self) -> u8
        ensures { result ≡ verdict_number self }
    {
        self as u8
    }
}
