ghost use Rattle.std.specs.Prelude.{◌≡◌, ◌<◌, ◌≤◌, length, slice_index};
ghost use Rattle.tables.specs.Tables.{set_entry, push_entry, cut_trail};
ghost use Rattle.tables.specs.Views.{tables_of};

use super::Memory;

impl Memory {
    // How many trail entries there are.
    pub fn trailed(&self) -> usize
        ensures { result ≡ length (tables_of self.now).trail }
    {
        self.trail.len()
    }

    // The cell that a trail entry names; entries are counted from the oldest.
    pub fn entry(&self, i: usize) -> usize
        requires { i < length (tables_of self.now).trail }
        ensures { result ≡ slice_index (tables_of self.now).trail i }
    {
        self.trail.at(i) as usize
    }

    pub fn set_entry(&mut self, i: usize, n: usize)
        requires { (i < length (tables_of self.old).trail) × (n < 4096) }
        ensures { tables_of self.new ≡ set_entry (tables_of self.old) i n }
    {
        self.trail.set(i, n as u16);
    }

    pub fn push_entry(&mut self, n: usize)
        requires { (length (tables_of self.old).trail < 4096) × (n ≤ 4096) }
        ensures { tables_of self.new ≡ push_entry (tables_of self.old) n }
    {
        self.trail.push(n as u16);
    }

    // Drops all entries from the n-th on.
    pub fn cut_trail(&mut self, n: usize)
        ensures { tables_of self.new ≡ cut_trail (tables_of self.old) n }
    {
        self.trail.truncate(n);
    }
}
