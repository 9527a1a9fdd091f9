ghost use Rattle.std.specs.Prelude.{◌≡◌, ◌<◌, ◌≤◌, true, length, slice_index_or};
ghost use Rattle.cells.specs.declared.cell.Cell.TheVariants.{Atom};
ghost use Rattle.cells.specs.Cells.{in_range};
ghost use Rattle.tables.specs.Tables.{push_choice, keep_choices, choice_at, set_choice, with_saved, with_tops, with_registers};
ghost use Rattle.tables.specs.Views.{tables_of, choice_of};

use super::{ChoicePoint, Memory};
use cells::Cell;

// A choice point is named by its distance from the newest, which is the 0th.
// That the place is valid is a fact of each call, so it is a clause.
impl Memory {
    // How many choice points there are.
    pub fn depth(&self) -> usize
        ensures { result ≡ length (tables_of self.now).choices }
    {
        self.choices.len()
    }

    // Saves the registers and the numbers of cells and trail entries as a new choice point.
    pub fn push_choice(&mut self)
        requires { length (tables_of self.old).choices < 64 }
        ensures { tables_of self.new ≡ push_choice (tables_of self.old) }
    {
        let point = ChoicePoint {
            saved: self.registers,
            heap_top: self.heap.len() as u16,
            trail_top: self.trail.len() as u16,
        };
        self.choices.push(point);
    }

    // Keeps the k oldest choice points.
    pub fn keep_choices(&mut self, k: usize)
        ensures { tables_of self.new ≡ keep_choices (tables_of self.old) k }
    {
        self.choices.truncate(k);
    }

    // The k-th choice point as it stands in memory.
    fn point(&self, k: usize) -> ChoicePoint
        requires { k < length (tables_of self.now).choices }
        ensures { choice_of result ≡ choice_at (tables_of self.now) k }
    {
        self.choices.at(self.choices.len() - 1 - k)
    }

    fn set_point(&mut self, k: usize, point: ChoicePoint)
        requires { k < length (tables_of self.old).choices }
        ensures { tables_of self.new ≡ set_choice (tables_of self.old) k (choice_of point) }
    {
        let place = self.choices.len() - 1 - k;
        self.choices.set(place, point);
    }

    pub fn heap_top(&self, k: usize) -> usize
        requires { k < length (tables_of self.now).choices }
        ensures { result ≡ (choice_at (tables_of self.now) k).heap_top }
    {
        let point = self.point(k);
        point.heap_top as usize
    }

    pub fn trail_top(&self, k: usize) -> usize
        requires { k < length (tables_of self.now).choices }
        ensures { result ≡ (choice_at (tables_of self.now) k).trail_top }
    {
        let point = self.point(k);
        point.trail_top as usize
    }

    // A saved register of a choice point.
    pub fn saved(&self, k: usize, r: usize) -> Cell
        requires { (k < length (tables_of self.now).choices) × (r < 8) }
        ensures { result ≡ slice_index_or (choice_at (tables_of self.now) k).saved r (Atom 0) }
    {
        let point = self.point(k);
        Cell::of(point.saved[r])
    }

    // All saved registers of a choice point.
    pub fn saved_registers(&self, k: usize) -> [Cell; 8]
        requires { k < length (tables_of self.now).choices }
        ensures { result ≡ (choice_at (tables_of self.now) k).saved }
    {
        let point = self.point(k);
        point.saved.map(Cell::of)
    }

    // How many registers a choice point saves.
    pub fn saved_len(&self, k: usize) -> usize
        requires { k < length (tables_of self.now).choices }
        ensures all { result ≡ length (choice_at (tables_of self.now) k).saved }
        ensures eight { result ≡ 8 }
    {
        let point = self.point(k);
        point.saved.len()
    }

    pub fn set_saved(&mut self, k: usize, r: usize, cell: Cell)
        requires { (k < length (tables_of self.old).choices) × ((r < 8) × (in_range cell ≡ true)) }
        ensures { tables_of self.new ≡ set_choice (tables_of self.old) k (with_saved (choice_at (tables_of self.old) k) r cell) }
    {
        let mut point = self.point(k);
        point.saved[r] = cell.word();
        self.set_point(k, point);
    }

    pub fn set_tops(&mut self, k: usize, heap_top: usize, trail_top: usize)
        requires { (k < length (tables_of self.old).choices) × ((heap_top ≤ 4096) × (trail_top ≤ 4096)) }
        ensures { tables_of self.new ≡ set_choice (tables_of self.old) k (with_tops (choice_at (tables_of self.old) k) heap_top trail_top) }
    {
        let mut point = self.point(k);
        point.heap_top = heap_top as u16;
        point.trail_top = trail_top as u16;
        self.set_point(k, point);
    }

    // Takes the registers from the newest choice point.
    pub fn restore_registers(&mut self)
        requires { 0 < length (tables_of self.old).choices }
        ensures { tables_of self.new ≡ with_registers (tables_of self.old) (choice_at (tables_of self.old) 0).saved }
    {
        let newest = self.point(0);
        let saved = newest.saved;
        self.registers = saved;
    }
}
