// A store whose calls are printed, each with its answer.
ghost use Rattle.std.specs.Prelude.{◌≡◌, ◌<◌, None};
ghost use Rattle.std.specs.Fn.{FnOnceReturnsAtMut};
ghost use Rattle.tables.specs.Tables.{set_up};
ghost use Rattle.calls.specs.declared.Call.TheVariants.{Atom, Arg, Look, Unify, Open, Retry, Last, Cut};
ghost use Rattle.calls.specs.declared.Answer.TheVariants.{Sees};
ghost use Rattle.store.specs.Called.{state, called, told, nothing, agrees};
ghost use Rattle.weld_task.specs.Slips.{half_in};
ghost use Rattle.weld_task.specs.Levels.{points, oldest, base, SameOldest, Opened, WentBack};

use super::step::Step;
use super::trace::Trace;
use calls::{Answer, Call};
use cells::{Refusal, Seen};
use store::Store;

#[derive(Drop)]
pub(crate) struct Machine<'a> {
    pub trace: Trace<'a>,
    pub store: Store,
}

impl<'a> Machine<'a> {
    pub(crate) fn new(rt: &'a HostRuntime) -> Machine<'a>
        ensures { state result.store ≡ record { tables = set_up; half = None } }
    {
        Machine {
            trace: Trace::new(rt),
            store: Store::new(),
        }
    }

    // Makes a call, prints it with its answer, and hands the result on.
    fn call<T: Copy + Into<Answer>, F: FnOnce(&mut Store) -> Result<T, Refusal>>(
        &mut self,
        call: Call,
        make: F,
    ) -> Result<T, Refusal>
        requires { F.IsAlwaysCallable make }
        ensures { FnOnceReturnsAtMut F.FnOnce make self.old.store result self.new.store }
    {
        let result = make(&mut self.store);
        let answer = result.into();
        self.trace.say(Step { call, answer });
        result
    }

    // Each call says itself what it keeps of `base`, `half_in` and the oldest choice point: such a promise speaks of two states, so
    // it is no invariant.
    pub(crate) fn atom(&mut self, d: u64, n: u64) -> Result<(), Refusal>
        ensures result { (told nothing result, state self.new.store) ≡ called (Atom d n) self.old.store }
        ensures kept { base self.new.store ≡ base self.old.store }
    {
        self.call(Call::Atom { d, n }, |store| store.atom(d, n))
    }

    pub(crate) fn arg(&mut self, d: u64, s: u64, i: u64) -> Result<(), Refusal>
        ensures result { (told nothing result, state self.new.store) ≡ called (Arg d s i) self.old.store }
        ensures kept { base self.new.store ≡ base self.old.store }
    {
        self.call(Call::Arg { d, s, i }, |store| store.arg(d, s, i))
    }

    pub(crate) fn look(&mut self, s: u64) -> Result<Seen, Refusal>
        ensures result { (told Sees result, state self.new.store) ≡ called (Look s) self.old.store }
        ensures kept { base self.new.store ≡ base self.old.store }
    {
        self.call(Call::Look { s }, |store| store.look(s))
    }

    pub(crate) fn unify(&mut self, s: u64, t: u64) -> Result<bool, Refusal>
        ensures result { (told agrees result, state self.new.store) ≡ called (Unify s t) self.old.store }
        ensures kept { base self.new.store ≡ base self.old.store }
    {
        self.call(Call::Unify { s, t }, |store| store.unify(s, t))
    }

    pub(crate) fn open(&mut self) -> Result<(), Refusal>
        ensures result { (told nothing result, state self.new.store) ≡ called Open self.old.store }
        ensures half { half_in self.new.store ≡ half_in self.old.store }
        ensures oldest { SameOldest self.old.store self.new.store }
        ensures opened { Opened self.old.store result self.new.store }
    {
        self.call(Call::Open, |store| store.open())
    }

    pub(crate) fn retry(&mut self) -> Result<(), Refusal>
        ensures result { (told nothing result, state self.new.store) ≡ called Retry self.old.store }
        ensures kept { base self.new.store ≡ base self.old.store }
    {
        self.call(Call::Retry, |store| store.retry())
    }

    pub(crate) fn last(&mut self) -> Result<(), Refusal>
        ensures result { (told nothing result, state self.new.store) ≡ called Last self.old.store }
        ensures half { half_in self.new.store ≡ half_in self.old.store }
        ensures oldest { 1 < points self.old.store → oldest self.new.store ≡ oldest self.old.store }
    {
        self.call(Call::Last, |store| store.last())
    }

    pub(crate) fn cut(&mut self, k: u64) -> Result<(), Refusal>
        ensures result { (told nothing result, state self.new.store) ≡ called (Cut k) self.old.store }
        ensures half { half_in self.new.store ≡ half_in self.old.store }
    {
        self.call(Call::Cut { k }, |store| store.cut(k))
    }

    // Goes back to the oldest choice point and removes it: gives back all that was made since.
    pub(crate) fn back(&mut self) -> Result<(), Refusal>
        ensures half { half_in self.new.store ≡ half_in self.old.store }
        ensures back { WentBack self.old.store self.new.store }
    {
        self.cut(1)?;
        self.last()
    }
}
