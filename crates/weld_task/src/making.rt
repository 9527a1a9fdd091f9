// Structures made on a store: every slip that is handed out is spent, by done or by void.
ghost use Rattle.std.specs.Prelude.{◌≡◌, IfErr, None};
ghost use Rattle.weld_task.specs.Slips.{half_in, Held, Begun, Filled, Settled};
ghost use Rattle.weld_task.specs.Levels.{levels, base};

use super::machine::Machine;
use super::step::Step;
use calls::{Answer, Call};
use cells::Refusal;
use store::Slip;

// An argument of a structure: the word in a register, or a new variable. It is no Option, since a variable is an argument as
// much as a register is.
#[derive(Clone, Copy)]
pub(crate) enum Part {
    Register(u64),
    Variable,
}

impl Machine<'_> {
    // Makes a structure of three arguments and points Xd at it. Where a call is refused, the structure is given up.
    pub(crate) fn make(&mut self, name: u64, parts: [Part; 3], d: u64) -> Result<(), Refusal>
        ensures { base self.new.store ≡ base self.old.store }
    {
        let mut slip = self.begin(name, 3)?;
        for part in parts {
            slip = self.fill(slip, part)?;
        }
        self.finish(slip, d)
    }

    fn begin(&mut self, name: u64, arity: u64) -> Result<Slip, Refusal>
        ensures begun { Begun self.old.store self.new.store result }
        ensures levels { levels self.new.store ≡ levels self.old.store }
    {
        // A slip is no copy, so the answer is read off before the slip is handed on.
        let result = self.store.start(name, arity);
        let answer = match &result {
            Ok(slip) => Answer::Hands(slip.draft()),
            Err(why) => Answer::Refused(*why),
        };
        let call = Call::Start { name, arity };
        self.trace.say(Step { call, answer });
        result
    }

    // Writes the next argument. The slip is on its way, here and below: a machine holds none between calls.
    fn fill(&mut self, slip: Slip, part: Part) -> Result<Slip, Refusal>
        requires { Held self.old.store slip }
        ensures filled { Filled self.new.store result }
        ensures levels { levels self.new.store ≡ levels self.old.store }
    {
        let draft = slip.draft();
        let (call, result) = match part {
            Part::Register(s) => (Call::Put { slip: draft, s }, self.store.put(slip, s)),
            Part::Variable => (Call::Hole { slip: draft }, self.store.hole(slip)),
        };
        self.settle(call, result, |slip| Answer::Hands(slip.draft()))
    }

    // Points Xd at the structure.
    fn finish(&mut self, slip: Slip, d: u64) -> Result<(), Refusal>
        requires { Held self.old.store slip }
        ensures half { half_in self.new.store ≡ None }
        ensures levels { levels self.new.store ≡ levels self.old.store }
    {
        let draft = slip.draft();
        let result = self.store.done(slip, d);
        self.settle(Call::Done { slip: draft, d }, result, |_| Answer::Nothing)
    }

    // Prints the answer of a call that spends a slip, and gives the structure up where it is a refusal.
    fn settle<T, A: FnOnce(&T) -> Answer>(
        &mut self,
        call: Call,
        res: Result<T, (Refusal, Slip)>,
        told: A,
    ) -> Result<T, Refusal>
        requires held { IfErr res (λ e. Held self.old.store e.1) }
        requires told { A.IsAlwaysCallable told }
        ensures settled { Settled self.old.store res self.new.store result }
        ensures levels { levels self.new.store ≡ levels self.old.store }
    {
        match res {
            Ok(value) => {
                let answer = told(&value);
                self.trace.say(Step { call, answer });
                Ok(value)
            }
            Err((why, slip)) => {
                let answer = Answer::Refused(why);
                self.trace.say(Step { call, answer });
                self.give_up(slip);
                Err(why)
            }
        }
    }

    // Gives the cells of the half-made structure back.
    fn give_up(&mut self, slip: Slip)
        requires { Held self.old.store slip }
        ensures half { half_in self.new.store ≡ None }
        ensures levels { levels self.new.store ≡ levels self.old.store }
    {
        let call = Call::Void { slip: slip.draft() };
        match self.store.void(slip) {
            Ok(()) => self.trace.say(Step {
                call,
                answer: Answer::Nothing,
            }),
            Err(_) => unreachable(),
        }
    }
}
