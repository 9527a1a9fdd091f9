ghost use Rattle.std.specs.Prelude.{◌≡◌};
ghost use Rattle.images.specs.Text.{Listing};
ghost use Rattle.lines.specs.declared.item.Item.TheVariants as item;
ghost use Rattle.images.specs.Drafts.{Holds, Next, Adds, Takes};

use super::Draft;
use cells::Cell;
use lines::{Item, Line, LineFault};
use tables::Memory;

// Each of these puts what the next line of its part says at its place; written into the arms of `put` they are no plainer.
impl Draft {
    fn put_cell(&mut self, i: u64, cell: Cell)
        requires { Next self.old (item.Heap i cell) }
        ensures { Adds self.old self.new (item.Heap i cell) }
    {
        self.memory.push_cell(cell);
    }

    fn put_register(&mut self, i: u64, cell: Cell)
        requires { Next self.old (item.Register i cell) }
        ensures { Adds self.old self.new (item.Register i cell) }
    {
        self.memory.set_register(i as usize, cell);
        self.registers += 1;
    }

    fn put_entry(&mut self, i: u64, n: u64)
        requires { Next self.old (item.Trail i n) }
        ensures { Adds self.old self.new (item.Trail i n) }
    {
        self.memory.push_entry(n as usize);
    }

    fn put_heap_top(&mut self, i: u64, n: u64)
        requires { Next self.old (item.HeapTop i n) }
        ensures { Adds self.old self.new (item.HeapTop i n) }
    {
        self.memory.push_choice();
        self.memory.set_tops(0, n as usize, 0);
    }

    fn put_trail_top(&mut self, i: u64, n: u64)
        requires { Next self.old (item.TrailTop i n) }
        ensures { Adds self.old self.new (item.TrailTop i n) }
    {
        let k = (self.heap_tops() - 1 - i) as usize;
        let heap_top = self.memory.heap_top(k);
        self.memory.set_tops(k, heap_top, n as usize);
        self.trail_tops += 1;
    }

    fn put_saved(&mut self, i: u64, cell: Cell)
        requires { Next self.old (item.Saved i cell) }
        ensures { Adds self.old self.new (item.Saved i cell) }
    {
        let k = (self.heap_tops() - 1 - i / 8) as usize;
        self.memory.set_saved(k, (i % 8) as usize, cell);
        self.saved += 1;
    }

    // Puts what the next line says at its place.
    pub(crate) fn put(&mut self, item: Item)
        requires { Next self.old item }
        ensures { Adds self.old self.new item }
    {
        match item {
            Item::Heap(i, cell) => self.put_cell(i, cell),
            Item::Register(i, cell) => self.put_register(i, cell),
            Item::Trail(i, n) => self.put_entry(i, n),
            Item::HeapTop(i, n) => self.put_heap_top(i, n),
            Item::TrailTop(i, n) => self.put_trail_top(i, n),
            Item::Saved(i, cell) => self.put_saved(i, cell),
        }
    }

    // Reads the next line.
    pub(crate) fn add(&mut self, line: Line) -> Result<(), LineFault>
        requires { (l : Listing) × Holds self.old l }
        ensures { (l : Listing) → Holds self.old l → Takes self.new l line.entry.number line.entry.text.now result }
    {
        let item = line.item()?;
        if self.follows(item) {
            self.put(item);
            Ok(())
        } else {
            Err(LineFault::BadLayout { line: line.number })
        }
    }

    // The tables as they stand.
    pub(crate) fn finish(self) -> Memory
        ensures { result ≡ self.memory }
    {
        self.memory
    }
}
