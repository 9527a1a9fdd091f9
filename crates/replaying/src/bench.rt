ghost use Rattle.store.specs.Called.{state};
ghost use Rattle.replaying.specs.Slips.{slip_of, Agrees};

use store::{Slip, Store};

mod calling;
mod keeping;
mod performing;

// A store, and the slip of the structure that is half made in it, if there is one.
pub struct Bench {
    store: Store,
    slip: Option<Slip>,
    ghost agrees: { Agrees (state store) (slip_of slip) },
}
