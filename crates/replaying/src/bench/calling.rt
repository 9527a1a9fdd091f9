ghost use Rattle.std.specs.Prelude.{◌≡◌, IfOk, IfErr, Some, None};
ghost use Rattle.store.specs.Called.{state, told_back, hands, nothing};
ghost use Rattle.replaying.specs.declared.reply.Reply.TheVariants.{Answered};
ghost use Rattle.replaying.specs.declared.request.Request.TheVariants.{Start, Put, Hole, Done, Void};
ghost use Rattle.replaying.specs.Slips.{slip_of, Agrees};
ghost use Rattle.replaying.specs.Benches.{bench_of, performed};

use super::super::reply::Reply;
use super::keeping::{handed, handed_back};
use calls::Answer;
use cells::Refusal;
use store::{Slip, Store};

pub(super) fn start(store: &mut Store, place: &mut Option<Slip>, name: u64, arity: u64) -> Reply
    requires { Agrees (state store.old) (slip_of place.old) }
    ensures { (result, bench_of store.new place.new) ≡ performed (Start name arity) (bench_of store.old place.old) }
{
    let answer = match store.start(name, arity) {
        Ok(slip) => handed(place, slip),
        Err(why) => Answer::Refused(why),
    };
    Reply::Answered(answer)
}

// Put, hole, done and void differ in the call and in what it returns. One function for them would take the call as a closure,
// and its contract would speak of what a closure does to the store and to the slip; so they share what is done with the result.
pub(super) fn put(store: &mut Store, place: &mut Option<Slip>, s: u64) -> Reply
    ensures { (result, bench_of store.new place.new) ≡ performed (Put s) (bench_of store.old place.old) }
{
    let Some(slip) = place.take() else {
        return Reply::NoSlip;
    };
    handed_on(place, store.put(slip, s))
}

pub(super) fn hole(store: &mut Store, place: &mut Option<Slip>) -> Reply
    ensures { (result, bench_of store.new place.new) ≡ performed Hole (bench_of store.old place.old) }
{
    let Some(slip) = place.take() else {
        return Reply::NoSlip;
    };
    handed_on(place, store.hole(slip))
}

pub(super) fn done(store: &mut Store, place: &mut Option<Slip>, d: u64) -> Reply
    ensures { (result, bench_of store.new place.new) ≡ performed (Done d) (bench_of store.old place.old) }
{
    let Some(slip) = place.take() else {
        return Reply::NoSlip;
    };
    spent(place, store.done(slip, d))
}

pub(super) fn void(store: &mut Store, place: &mut Option<Slip>) -> Reply
    ensures { (result, bench_of store.new place.new) ≡ performed Void (bench_of store.old place.old) }
{
    let Some(slip) = place.take() else {
        return Reply::NoSlip;
    };
    spent(place, store.void(slip))
}

// The reply to put or hole. The slip that is handed on or back is kept.
fn handed_on(place: &mut Option<Slip>, made: Result<Slip, (Refusal, Slip)>) -> Reply
    requires { place.old ≡ None }
    ensures reply { result ≡ Answered (told_back hands made) }
    ensures taken { IfOk made (λ slip. place.new ≡ Some slip) }
    ensures back { IfErr made (λ e. place.new ≡ Some e.1) }
{
    let answer = match made {
        Ok(slip) => handed(place, slip),
        Err(back) => handed_back(place, back),
    };
    Reply::Answered(answer)
}

// The reply to done or void. A slip that is handed back is kept.
fn spent(place: &mut Option<Slip>, made: Result<(), (Refusal, Slip)>) -> Reply
    requires { place.old ≡ None }
    ensures reply { result ≡ Answered (told_back nothing made) }
    ensures spent { IfOk made (λ u. place.new ≡ None) }
    ensures back { IfErr made (λ e. place.new ≡ Some e.1) }
{
    let answer = match made {
        Ok(()) => Answer::Nothing,
        Err(back) => handed_back(place, back),
    };
    Reply::Answered(answer)
}
