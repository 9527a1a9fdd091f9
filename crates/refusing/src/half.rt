ghost use Rattle.std.specs.Prelude.{◌≡◌, suc, pred, ◌+◌, ◌-◌, ◌<◌, ◌≤◌};

use calls::Draft;

// A structure that is half made: the number of its functor's cell, and how many arguments are still to be written.
#[derive(Clone, Copy)]
pub struct Half {
    pub at: usize,
    pub missing: u64,
}

impl Half {
    // The cell of the next argument, where the slip says how many there are and how many are missing.
    pub fn next(self, slip: Draft) -> usize
        requires { (slip.missing ≤ slip.arity) × (suc self.at + slip.arity ≤ 4096) }
        ensures { result ≡ suc self.at + (slip.arity - slip.missing) }
    {
        self.at + 1 + (slip.arity - slip.missing) as usize
    }

    // One argument has been written.
    pub fn fewer(self) -> Half
        requires { 0 < self.missing }
        ensures { result ≡ record { at = self.at; missing = pred self.missing } }
    {
        Half {
            missing: self.missing - 1,
            ..self
        }
    }
}
