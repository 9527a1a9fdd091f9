ghost use Rattle.std.specs.Prelude.{◌≡◌};
ghost use Rattle.calls.specs.declared.Call.TheVariants.{Open, Retry, Last, Cut};
ghost use Rattle.store.specs.Called.{state, called, told, nothing, Unchanged, IfRefused};

use super::Store;
use binding::go_back;
use calls::Call;
use cells::Refusal;

impl Store {
    // Saves the registers and the numbers of cells and trail entries as a new choice point.
    pub fn open(&mut self) -> Result<(), Refusal>
        ensures result { (told nothing result, state self.new) ≡ called Open self.old }
        ensures kept { IfRefused result (Unchanged self.old self.new) }
    {
        self.admit(Call::Open)?;
        self.memory.push_choice();
        Ok(())
    }

    // Goes back to the newest choice point, which stays.
    pub fn retry(&mut self) -> Result<(), Refusal>
        ensures result { (told nothing result, state self.new) ≡ called Retry self.old }
        ensures kept { IfRefused result (Unchanged self.old self.new) }
    {
        self.admit(Call::Retry)?;
        go_back(&mut self.memory);
        Ok(())
    }

    // Goes back to the newest choice point and removes it.
    pub fn last(&mut self) -> Result<(), Refusal>
        ensures result { (told nothing result, state self.new) ≡ called Last self.old }
        ensures kept { IfRefused result (Unchanged self.old self.new) }
    {
        self.admit(Call::Last)?;
        let points = self.memory.depth();
        go_back(&mut self.memory);
        self.memory.keep_choices(points - 1);
        Ok(())
    }

    // Keeps the k oldest choice points and undoes nothing.
    pub fn cut(&mut self, k: u64) -> Result<(), Refusal>
        ensures result { (told nothing result, state self.new) ≡ called (Cut k) self.old }
        ensures kept { IfRefused result (Unchanged self.old self.new) }
    {
        self.admit(Call::Cut { k })?;
        self.memory.keep_choices(k as usize);
        Ok(())
    }
}
