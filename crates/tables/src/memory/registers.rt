ghost use Rattle.std.specs.Prelude.{◌≡◌, ◌<◌, true};
ghost use Rattle.cells.specs.Cells.{in_range};
ghost use Rattle.tables.specs.Tables.{register, set_register};
ghost use Rattle.tables.specs.Views.{tables_of};

use super::Memory;
use cells::Cell;

impl Memory {
    // What all registers hold.
    pub fn registers(&self) -> [Cell; 8]
        ensures { result ≡ (tables_of self.now).registers }
    {
        let registers = self.registers;
        registers.map(Cell::of)
    }

    pub fn register(&self, r: usize) -> Cell
        requires { r < 8 }
        ensures { result ≡ register (tables_of self.now) r }
    {
        Cell::of(self.registers[r])
    }

    pub fn set_register(&mut self, r: usize, cell: Cell)
        requires { (r < 8) × (in_range cell ≡ true) }
        ensures { tables_of self.new ≡ set_register (tables_of self.old) r cell }
    {
        self.registers[r] = cell.word();
    }
}
