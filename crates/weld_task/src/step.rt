// A call and its answer as a line of the output.
use calls::{Answer, Call};
use cells::{Seen, Verdict};
use classifying::Rule;
use std::fmt;

// A call of the store and what it answered.
#[derive(Clone, Copy)]
pub(crate) struct Step {
    pub call: Call,
    pub answer: Answer,
}

// A rule that is tried, and its place in the table, counted from 0.
#[derive(Clone, Copy)]
pub(crate) struct Tried {
    place: usize,
    rule: Rule,
}

impl Tried {
    pub(crate) fn new(place: usize, rule: Rule) -> Tried {
        Tried { place, rule }
    }
}

// An atom by its name: zones, strengths and labels of echoes. The name is found by the
// number alone, since an answer does not say what its atom stands for.
#[derive(Clone, Copy)]
struct Name(u64);

impl fmt::Display for Name {
    fn fmt<W: fmt::Write>(&self, f: &mut fmt::Formatter<W>) -> fmt::Result {
        f.write_str(match self.0 {
            1 => "root",
            2 => "body",
            3 => "cap",
            4 => "beside",
            5 => "weak",
            6 => "medium",
            7 => "strong",
            8 => "flaw",
            9 => "geometry",
            _ => "none",
        })
    }
}

// A functor by its name: there is only that of echoes.
#[derive(Clone, Copy)]
struct Functor(u64);

impl fmt::Display for Functor {
    fn fmt<W: fmt::Write>(&self, f: &mut fmt::Formatter<W>) -> fmt::Result {
        f.write_str(match self.0 {
            1 => "echo",
            _ => "none",
        })
    }
}

// A call, an answer or a word that is seen, in the form of the output.
#[derive(Clone, Copy)]
struct Shown<T>(T);

impl fmt::Display for Step {
    fn fmt<W: fmt::Write>(&self, f: &mut fmt::Formatter<W>) -> fmt::Result {
        write!(f, "    {}: {}", Shown(self.call), Shown(self.answer))
    }
}

impl fmt::Display for Shown<Call> {
    fn fmt<W: fmt::Write>(&self, f: &mut fmt::Formatter<W>) -> fmt::Result {
        match self.0 {
            Call::Var { d } => write!(f, "var X{d}"),
            Call::Atom { d, n } => write!(f, "atom X{d} {}", Name(n)),
            Call::Int { d, z } => write!(f, "int X{d} {z}"),
            Call::Move { d, s } => write!(f, "move X{d} X{s}"),
            Call::Look { s } => write!(f, "look X{s}"),
            Call::Arg { d, s, i } => write!(f, "arg X{d} X{s} {i}"),
            Call::Same { s, t } => write!(f, "same X{s} X{t}"),
            Call::Unify { s, t } => write!(f, "unify X{s} X{t}"),
            Call::Open => f.write_str("open"),
            Call::Retry => f.write_str("retry"),
            Call::Last => f.write_str("last"),
            Call::Cut { k } => write!(f, "cut {k}"),
            Call::Start { name, arity } => write!(f, "start {}/{arity}", Functor(name)),
            Call::Put { slip: _, s } => write!(f, "put X{s}"),
            Call::Hole { slip: _ } => f.write_str("hole"),
            Call::Done { slip: _, d } => write!(f, "done X{d}"),
            Call::Void { slip: _ } => f.write_str("void"),
            Call::Collect => f.write_str("collect"),
            Call::Usage => f.write_str("usage"),
        }
    }
}

impl fmt::Display for Shown<Answer> {
    fn fmt<W: fmt::Write>(&self, f: &mut fmt::Formatter<W>) -> fmt::Result {
        match self.0 {
            Answer::Nothing => f.write_str("ok"),
            Answer::Refused(why) => write!(f, "refused, {why:?}"),
            Answer::Sees(seen) => write!(f, "{}", Shown(seen)),
            Answer::Tells(Verdict::Yes) => f.write_str("yes"),
            Answer::Tells(Verdict::No) => f.write_str("no"),
            Answer::Hands(slip) => write!(f, "{} missing", slip.missing),
            Answer::Counts(usage) => write!(
                f,
                "{} cells, {} trail entries, {} choice points",
                usage.used, usage.entries, usage.points
            ),
        }
    }
}

impl fmt::Display for Shown<Seen> {
    fn fmt<W: fmt::Write>(&self, f: &mut fmt::Formatter<W>) -> fmt::Result {
        match self.0 {
            Seen::Variable => f.write_str("unbound"),
            Seen::Atom(n) => write!(f, "{}", Name(n as u64)),
            Seen::Integer(z) => write!(f, "{z}"),
            Seen::Structure(v) => write!(f, "structure {v}"),
        }
    }
}

// What a rule asks for, or any.
#[derive(Clone, Copy)]
struct OrAny<T>(Option<T>);

impl<T: fmt::Display> fmt::Display for OrAny<T> {
    fn fmt<W: fmt::Write>(&self, f: &mut fmt::Formatter<W>) -> fmt::Result {
        match &self.0 {
            Some(asked) => write!(f, "{asked}"),
            None => f.write_str("any"),
        }
    }
}

impl fmt::Display for Tried {
    fn fmt<W: fmt::Write>(&self, f: &mut fmt::Formatter<W>) -> fmt::Result {
        let number = self.place.saturating_add(1);
        let Rule {
            label,
            zone,
            strength,
        } = self.rule;
        write!(
            f,
            "  rule {number}: {label} if the zone is {} and the strength is {}",
            OrAny(zone),
            OrAny(strength)
        )
    }
}
