//! The answers that tell what a call returns.

ghost use Rattle.std.specs.Prelude.{◌≡◌, MatchResult};
ghost use Rattle.calls.specs.declared.Answer.TheVariants.{Nothing, Refused, Sees, Counts};
ghost use Rattle.calls.specs.Told.{agrees};

use super::Answer;
use cells::{Refusal, Seen};
use tables::Usage;

// Of a call with nothing to tell.
impl From<()> for Answer {
    ghost from_gives = { λ _ a. a ≡ Nothing };

    fn from(_done: ()) -> Answer {
        Answer::Nothing
    }
}

// Of a comparison.
impl From<bool> for Answer {
    ghost from_gives = { λ holds a. a ≡ agrees holds };

    fn from(holds: bool) -> Answer {
        Answer::Tells(holds.into())
    }
}

impl From<Usage> for Answer {
    ghost from_gives = { λ usage a. a ≡ Counts usage };

    fn from(usage: Usage) -> Answer {
        Answer::Counts(usage)
    }
}

impl From<Seen> for Answer {
    ghost from_gives = { λ seen a. a ≡ Sees seen };

    fn from(seen: Seen) -> Answer {
        Answer::Sees(seen)
    }
}

// Of a call that may be refused.
impl<T: Into<Answer>> From<Result<T, Refusal>> for Answer {
    ghost from_gives = { λ res a. MatchResult res (λ value. T.converts value a) (λ why. a ≡ Refused why) };

    fn from(res: Result<T, Refusal>) -> Answer {
        match res {
            Ok(value) => value.into(),
            Err(why) => Answer::Refused(why),
        }
    }
}
