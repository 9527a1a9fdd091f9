ghost use Rattle.std.specs.Prelude.{Some};
ghost use Rattle.replaying.specs.Replies.{reply_text};

use super::Reply;
use calls::Answer;
use cells::{Seen, Verdict};
use images::LoadFault;
use std::fmt;

// The texts of docs/REPLAY.md. They are the replies' own: weld_task prints the same answers in other words.
impl fmt::Display for Reply {
    ghost output = { λ r. Some (reply_text r) };

    fn fmt<W: fmt::Write>(&self, f: &mut fmt::Formatter<W>) -> fmt::Result {
        match *self {
            Reply::Answered(Answer::Nothing) => write!(f, "ok"),
            Reply::Answered(Answer::Refused(why)) => write!(f, "refused {}", why.number()),
            Reply::Answered(Answer::Sees(Seen::Variable)) => write!(f, "variable"),
            Reply::Answered(Answer::Sees(Seen::Atom(n))) => write!(f, "atom {n}"),
            Reply::Answered(Answer::Sees(Seen::Integer(z))) => write!(f, "integer {z}"),
            Reply::Answered(Answer::Sees(Seen::Structure(v))) => write!(f, "structure {v}"),
            Reply::Answered(Answer::Tells(Verdict::No)) => write!(f, "no"),
            Reply::Answered(Answer::Tells(Verdict::Yes)) => write!(f, "yes"),
            Reply::Answered(Answer::Hands(slip)) => {
                let functor = slip.name as u128 * 64 + slip.arity as u128;
                let missing = slip.missing;
                write!(f, "slip {functor} {missing}")
            }
            Reply::Answered(Answer::Counts(usage)) => write!(
                f,
                "used {} trail {} choices {}",
                usage.used, usage.entries, usage.points
            ),
            Reply::NoSlip => write!(f, "no slip"),
            // the numbers stand here as in their definition; with refusal, rule and line of the fault the proof was tried
            // and does not close
            Reply::NotLoaded(LoadFault::BadShape { line }) => write!(
                f,
                "refused 10 rule 0 line {line}"
            ),
            Reply::NotLoaded(LoadFault::BadLayout { line }) => write!(
                f,
                "refused 11 rule 0 line {line}"
            ),
            Reply::NotLoaded(LoadFault::BrokenRule { rule, line }) => {
                write!(f, "refused 12 rule {} line {line}", rule.number())
            }
            Reply::NotACall => write!(f, "not a call"),
        }
    }
}
