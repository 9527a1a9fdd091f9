ghost use Rattle.std.specs.Prelude.{◌≡◌, ◌+◌, length};
ghost use Rattle.tables.specs.Stacks.{listed};
ghost use Rattle.occurring.specs.Bytes.{zeros, Ones};

use tables::Stack;

mod guard;
mod methods;

pub(crate) use guard::Visits;

// Which cells a walk has visited: a byte for each cell, and the list of the visited cells, by which the walk goes on and
// the bytes are cleared. A cell is listed once, so the list cannot overflow. 12,296 bytes.
#[derive(Drop)]
pub struct VisitTable {
    bytes: [u8; 4096],
    cells: Stack<u16, 4096>,
    ghost whole: { length bytes ≡ 4096 },
    ghost ones: { Ones bytes (listed cells) },
    ghost count: { zeros bytes + length (listed cells) ≡ 4096 },
}
