// Comparing and unifying the terms that two registers spell.
ghost use Rattle.std.specs.Prelude.{◌≡◌};
ghost use Rattle.calls.specs.declared.Call.TheVariants.{Same, Unify};
ghost use Rattle.store.specs.Called.{state, called, told, agrees, Unchanged, IfRefused};
ghost use Rattle.store.specs.Unified.{UnifiesTerms};

use super::Store;
use calls::Call;
use cells::Refusal;
use unifying::unify;

impl Store {
    // Whether Xs and Xt spell the same term.
    pub fn same(&mut self, s: u64, t: u64) -> Result<bool, Refusal>
        ensures result { (told agrees result, state self.new) ≡ called (Same s t) self.old }
        ensures kept { IfRefused result (Unchanged self.old self.new) }
    {
        self.admit(Call::Same { s, t })?;
        let left = self.memory.register(s as usize);
        let right = self.memory.register(t as usize);
        Ok(self.work.same(&self.memory, left, right))
    }

    // Unifies the terms that Xs and Xt spell, with occurs check. Yes: a most general unifier is in force. No: they have none,
    // and nothing has changed.
    pub fn unify(&mut self, s: u64, t: u64) -> Result<bool, Refusal>
        ensures result { (told agrees result, state self.new) ≡ called (Unify s t) self.old }
        ensures iso { UnifiesTerms (state self.old).tables s t result (state self.new).tables }
        ensures kept { IfRefused result (Unchanged self.old self.new) }
    {
        self.admit(Call::Unify { s, t })?;
        let left = self.memory.register(s as usize);
        let right = self.memory.register(t as usize);
        Ok(unify(&mut self.memory, left, right, &mut self.work))
    }
}
