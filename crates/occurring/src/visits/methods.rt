ghost use Rattle.std.specs.Prelude.{◌≡◌, ◌<◌, ◌≤◌, [], length, replicate, slice_index};
ghost use Rattle.tables.specs.Stacks.{listed};
ghost use Rattle.occurring.specs.Bytes.{Ones};
ghost use Rattle.occurring.specs.Visits.{visited, with_visit};

use super::VisitTable;
use tables::Stack;

impl VisitTable {
    // No cell is visited.
    pub fn new() -> VisitTable
        ensures { visited result ≡ [] }
    {
        VisitTable {
            bytes: [0; 4096],
            cells: Stack::new(0),
        }
    }

    // How many cells are visited.
    pub(crate) fn len(&self) -> usize
        ensures count { result ≡ length (visited self.now) }
        ensures within { result ≤ 4096 }
    {
        self.cells.len()
    }

    // The cell that was visited after `place` others.
    pub(crate) fn at(&self, place: usize) -> u64
        requires { place < length (visited self.now) }
        ensures { result ≡ slice_index (visited self.now) place }
    {
        self.cells.at(place) as u64
    }

    // Visits the cell n, unless it was visited before.
    pub(crate) fn visit(&mut self, n: u64)
        requires { n < 4096 }
        ensures { visited self.new ≡ with_visit (visited self.old) n }
    {
        if self.bytes[n as usize] == 0 {
            self.bytes[n as usize] = 1;
            self.cells.push(n as u16);
        }
    }

    // Forgets all visits.
    pub(crate) fn clear(&mut self)
        ensures blank { self.new.bytes ≡ replicate 4096 0 }
        ensures empty { visited self.new ≡ [] }
    {
        clear_listed(&mut self.bytes, &self.cells);
        self.cells.truncate(0);
    }
}

// Makes each byte 0 whose cell is listed, so all are. It takes the two fields alone: they agree again only at the end.
fn clear_listed(bytes: &mut [u8; 4096], cells: &Stack<u16, 4096>)
    requires { Ones bytes.old (listed cells.now) }
    ensures { bytes.new ≡ replicate 4096 0 }
{
    for n in cells.as_slice() {
        bytes[*n as usize] = 0;
    }
}
