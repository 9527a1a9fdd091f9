ghost use Rattle.std.specs.Prelude.{◌≡◌, ◌<◌, true, length};
ghost use Rattle.cells.specs.Cells.{in_range};
ghost use Rattle.tables.specs.Tables.{set_up, used, usage_of, cell_at, set_cell, push_cell, cut_heap};
ghost use Rattle.tables.specs.Views.{tables_of};

use super::super::stack::Stack;
use super::super::usage::Usage;
use super::{ChoicePoint, Memory};
use cells::Cell;

impl Memory {
    // No cells in use, and atom 0 in each register.
    pub fn new() -> Memory
        ensures { tables_of result ≡ set_up }
    {
        let atom_0 = Cell::Atom(0).word();
        let none = ChoicePoint {
            saved: [atom_0; 8],
            heap_top: 0,
            trail_top: 0,
        };
        Memory {
            heap: Stack::new(0),
            trail: Stack::new(0),
            choices: Stack::new(none),
            registers: [atom_0; 8],
        }
    }

    // How many cells are in use.
    pub fn used(&self) -> usize
        ensures { result ≡ used (tables_of self.now) }
    {
        self.heap.len()
    }

    // How many cells, trail entries and choice points are in use.
    pub fn usage(&self) -> Usage
        ensures { result ≡ usage_of (tables_of self.now) }
    {
        Usage {
            used: self.heap.len() as u64,
            entries: self.trail.len() as u64,
            points: self.choices.len() as u64,
        }
    }

    // What a cell holds; a cell that is not in use counts as an unbound variable.
    pub fn cell(&self, i: usize) -> Cell
        ensures { result ≡ cell_at (tables_of self.now) i }
    {
        if i < self.heap.len() {
            Cell::of(self.heap.at(i))
        } else {
            Cell::Reference(i as u64)
        }
    }

    pub fn set_cell(&mut self, i: usize, cell: Cell)
        requires { (i < used (tables_of self.old)) × (in_range cell ≡ true) }
        ensures { tables_of self.new ≡ set_cell (tables_of self.old) i cell }
    {
        self.heap.set(i, cell.word());
    }

    // Takes one more cell.
    pub fn push_cell(&mut self, cell: Cell)
        requires { (used (tables_of self.old) < 4096) × (in_range cell ≡ true) }
        ensures { tables_of self.new ≡ push_cell (tables_of self.old) cell }
    {
        self.heap.push(cell.word());
    }

    // Gives back all cells from the n-th on.
    pub fn cut_heap(&mut self, n: usize)
        ensures { tables_of self.new ≡ cut_heap (tables_of self.old) n }
    {
        self.heap.truncate(n);
    }
}
