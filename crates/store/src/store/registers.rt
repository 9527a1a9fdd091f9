ghost use Rattle.std.specs.Prelude.{◌≡◌};
ghost use Rattle.calls.specs.declared.Call.TheVariants.{Var, Atom, Int, Move};
ghost use Rattle.store.specs.Called.{state, called, told, nothing, Unchanged, IfRefused};

use super::Store;
use calls::Call;
use cells::{Cell, Refusal};

impl Store {
    // Takes a cell, unbound, and makes Xd refer to it.
    pub fn var(&mut self, d: u64) -> Result<(), Refusal>
        ensures result { (told nothing result, state self.new) ≡ called (Var d) self.old }
        ensures kept { IfRefused result (Unchanged self.old self.new) }
    {
        self.admit(Call::Var { d })?;
        let at = Cell::Reference(self.memory.used() as u64);
        self.memory.push_cell(at);
        self.memory.set_register(d as usize, at);
        Ok(())
    }

    // Sets Xd to an atom. No shorter as one with int: each is its admit and its cell.
    pub fn atom(&mut self, d: u64, n: u64) -> Result<(), Refusal>
        ensures result { (told nothing result, state self.new) ≡ called (Atom d n) self.old }
        ensures kept { IfRefused result (Unchanged self.old self.new) }
    {
        self.admit(Call::Atom { d, n })?;
        self.memory.set_register(d as usize, Cell::Atom(n));
        Ok(())
    }

    // Sets Xd to an integer.
    pub fn int(&mut self, d: u64, z: i64) -> Result<(), Refusal>
        ensures result { (told nothing result, state self.new) ≡ called (Int d z) self.old }
        ensures kept { IfRefused result (Unchanged self.old self.new) }
    {
        self.admit(Call::Int { d, z })?;
        self.memory.set_register(d as usize, Cell::Integer(z));
        Ok(())
    }

    // Sets Xd to the word in Xs.
    pub fn copy(&mut self, d: u64, s: u64) -> Result<(), Refusal>
        ensures result { (told nothing result, state self.new) ≡ called (Move d s) self.old }
        ensures kept { IfRefused result (Unchanged self.old self.new) }
    {
        self.admit(Call::Move { d, s })?;
        let word = self.memory.register(s as usize);
        self.memory.set_register(d as usize, word);
        Ok(())
    }
}
