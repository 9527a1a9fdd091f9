ghost use Rattle.std.specs.Prelude.{◌≡◌, is_some, None};
ghost use Rattle.tables.specs.Tables.{set_up};
ghost use Rattle.images.specs.Reading.{loaded};
ghost use Rattle.store.specs.Called.{state};
ghost use Rattle.replaying.specs.Slips.{slip_of, Agrees};
ghost use Rattle.replaying.specs.Benches.{bench_of, performed, reloaded};

use super::super::reply::Reply;
use super::super::request::Request;
use super::keeping::give_up;
use super::{Bench, calling};
use images::LoadFault;
use store::{Slip, Store};

// Carries a request out on a store, with the slip that stands at `place` for put, hole, done and void. The two are lent apart:
// while a call has the slip, what a bench knows of both does not hold: they agree again only at the end.
fn carry_out(store: &mut Store, place: &mut Option<Slip>, request: Request) -> Reply
    requires { Agrees (state store.old) (slip_of place.old) }
    ensures { (result, bench_of store.new place.new) ≡ performed request (bench_of store.old place.old) }
{
    // each arm is a reply; in a match to an Answer, put, hole, done and void would return NoSlip from its midst
    match request {
        Request::Var { d } => Reply::Answered(store.var(d).into()),
        Request::Atom { d, n } => Reply::Answered(store.atom(d, n).into()),
        Request::Int { d, z } => Reply::Answered(store.int(d, z).into()),
        Request::Move { d, s } => Reply::Answered(store.copy(d, s).into()),
        Request::Look { s } => Reply::Answered(store.look(s).into()),
        Request::Arg { d, s, i } => Reply::Answered(store.arg(d, s, i).into()),
        Request::Same { s, t } => Reply::Answered(store.same(s, t).into()),
        Request::Unify { s, t } => Reply::Answered(store.unify(s, t).into()),
        Request::Open => Reply::Answered(store.open().into()),
        Request::Retry => Reply::Answered(store.retry().into()),
        Request::Last => Reply::Answered(store.last().into()),
        Request::Cut { k } => Reply::Answered(store.cut(k).into()),
        Request::Start { name, arity } => calling::start(store, place, name, arity),
        Request::Put { s } => calling::put(store, place, s),
        Request::Hole => calling::hole(store, place),
        Request::Done { d } => calling::done(store, place, d),
        Request::Void => calling::void(store, place),
        Request::Usage => Reply::Answered(store.usage().into()),
    }
}

impl Bench {
    // A store with no cells in use and atom 0 in each register; no slip is held.
    pub fn new() -> Bench
        ensures { bench_of result.store result.slip ≡ record { state = record { tables = set_up; half = None }; slip = None } }
    {
        let store = Store::new();
        Bench { store, slip: None }
    }

    // Carries a request out, with the slip that is held for put, hole, done and void.
    pub fn perform(&mut self, request: Request) -> Reply
        ensures { (result, bench_of self.new.store self.new.slip) ≡ performed request (bench_of self.old.store self.old.slip) }
    {
        carry_out(&mut self.store, &mut self.slip, request)
    }

    // Replaces the store by that of an image, and says whether a structure that was half made is given up.
    // A fault leaves the store and the slip.
    pub fn load(&mut self, image: &[u8]) -> Result<bool, LoadFault>
        ensures { (result, bench_of self.new.store self.new.slip) ≡ reloaded (loaded image.now) (bench_of self.old.store self.old.slip) }
    {
        let store = Store::load(image)?;
        let given_up = give_up(&mut self.store, self.slip.take());
        self.store = store;
        Ok(given_up)
    }

    // Gives up a structure that is still half made, and says whether there was one.
    pub fn finish(self) -> bool
        ensures { result ≡ is_some self.slip }
    {
        let Bench { mut store, slip } = self;
        give_up(&mut store, slip)
    }
}
