ghost use Rattle.std.specs.Result.{result_err};
ghost use Rattle.std.specs.Prelude.{◌≡◌, true};
ghost use Rattle.tables.specs.Views.{tables_of};
ghost use Rattle.calls.specs.declared.Call.TheVariants.{Look, Arg, Usage as UsageCall};
ghost use Rattle.calls.specs.declared.Answer.TheVariants.{Sees, Counts};
ghost use Rattle.calls.specs.Steps.{name_of, seen_at};
ghost use Rattle.cells.specs.Cells.{in_range, functor_value};
ghost use Rattle.heaps.specs.Spelling.{arity_of};
ghost use Rattle.heaps.specs.LevelLaws.{Stands, Keeps};
ghost use Rattle.refusing.specs.Refused.{refusal_for};
ghost use Rattle.store.specs.Called.{state, called, told, nothing, Unchanged, IfRefused};

use super::Store;
use calls::Call;
use cells::{Cell, Refusal, Seen};
use reading::end_of;
use refusing::{admit, argument};
use tables::{Memory, Usage};

// What is seen of a word at the end of a chain. No chain ends at a functor; the definition answers so there.
fn seen_at(memory: &Memory, word: Cell) -> Seen
    requires stands { Stands (tables_of memory.now) }
    requires keeps { Keeps (tables_of memory.now) word }
    ensures { result ≡ seen_at (tables_of memory.now) word }
{
    match word {
        Cell::Reference(_) => Seen::Variable,
        Cell::Pointer(n) => Seen::Structure(functor_value(memory.cell(n as usize))),
        Cell::Functor { name: _, arity: _ } => Seen::Variable,
        Cell::Atom(n) => Seen::Atom(n as u32),
        Cell::Integer(z) => Seen::Integer(z as i32),
    }
}

// The value of a functor, name × 64 + arity.
fn functor_value(cell: Cell) -> u32
    requires { in_range cell ≡ true }
    ensures { result ≡ functor_value (name_of cell) (arity_of cell) }
{
    match cell {
        Cell::Functor { name, arity } => name as u32 * 64 + arity as u32,
        // does not come up: a pointer leads to a functor
        _ => 0,
    }
}

impl Store {
    // Whether a call is accepted, or with what it is refused.
    pub(super) fn admit(&self, call: Call) -> Result<(), Refusal>
        ensures { result_err result ≡ refusal_for call (state self.now) }
    {
        admit(&self.memory, self.half, call)
    }

    // What stands at the end of Xs's chain.
    pub fn look(&self, s: u64) -> Result<Seen, Refusal>
        ensures { (told Sees result, state self.now) ≡ called (Look s) self.now }
    {
        self.admit(Call::Look { s })?;
        let end = end_of(&self.memory, self.memory.register(s as usize));
        Ok(seen_at(&self.memory, end))
    }

    // Sets Xd to the word of argument i of the structure at Xs's end.
    pub fn arg(&mut self, d: u64, s: u64, i: u64) -> Result<(), Refusal>
        ensures result { (told nothing result, state self.new) ≡ called (Arg d s i) self.old }
        ensures kept { IfRefused result (Unchanged self.old self.new) }
    {
        self.admit(Call::Arg { d, s, i })?;
        let Some(place) = argument(&self.memory, s, i) else {
            unreachable();
        };
        let word = self.memory.cell(place);
        self.memory.set_register(d as usize, word);
        Ok(())
    }

    // How much of the store is in use.
    pub fn usage(&self) -> Usage
        ensures { (Counts result, state self.now) ≡ called UsageCall self.now }
    {
        self.memory.usage()
    }
}
