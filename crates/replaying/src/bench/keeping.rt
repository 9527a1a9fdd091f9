ghost use Rattle.std.specs.Prelude.{◌≡◌, is_some, Some, None};
ghost use Rattle.calls.specs.declared.Answer.TheVariants.{Refused};
ghost use Rattle.store.specs.Called.{state, hands};
ghost use Rattle.replaying.specs.Slips.{slip_of, Agrees};

use calls::Answer;
use cells::Refusal;
use store::{Slip, Store};

// Puts a slip where there is none.
pub(super) fn keep(place: &mut Option<Slip>, slip: Slip)
    requires { place.old ≡ None }
    ensures { place.new ≡ Some slip }
{
    match place.replace(slip) {
        None => {}
        Some(_other) => unreachable(),
    }
}

// Gives up the structure of the slip, if there is one, and says whether there was.
pub(super) fn give_up(store: &mut Store, slip: Option<Slip>) -> bool
    requires { Agrees (state store.old) (slip_of slip) }
    ensures { result ≡ is_some slip }
{
    let Some(slip) = slip else {
        return false;
    };
    match store.void(slip) {
        Ok(()) => true,
        Err((_, _slip)) => unreachable(),
    }
}

// The answer that hands out a slip, which is kept.
pub(super) fn handed(place: &mut Option<Slip>, slip: Slip) -> Answer
    requires { place.old ≡ None }
    ensures answer { result ≡ hands slip }
    ensures slip { place.new ≡ Some slip }
{
    let draft = slip.draft();
    keep(place, slip);
    Answer::Hands(draft)
}

// The answer of a call that is refused and hands its slip back, which is kept.
pub(super) fn handed_back(place: &mut Option<Slip>, back: (Refusal, Slip)) -> Answer
    requires { place.old ≡ None }
    ensures answer { result ≡ Refused back.0 }
    ensures slip { place.new ≡ Some back.1 }
{
    let (why, slip) = back;
    keep(place, slip);
    Answer::Refused(why)
}
