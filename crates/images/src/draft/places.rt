ghost use Rattle.std.specs.Prelude.{◌≡◌, ◌≤◌, true, length};
ghost use Rattle.tables.specs.Views.{tables_of};
ghost use Rattle.images.specs.Text.{Listing};
ghost use Rattle.images.specs.Reading.{follows, nothing, whole, no_tops, no_choices, no_trail, no_registers};
ghost use Rattle.images.specs.Drafts.{Holds};

use super::Draft;
use lines::Item;
use tables::Memory;

// These contracts speak of the listing that a draft stands for, which its fields do not hold.
impl Draft {
    // Nothing is read.
    pub(crate) fn new() -> Draft
        ensures { Holds result nothing }
    {
        Draft {
            memory: Memory::new(),
            registers: 0,
            trail_tops: 0,
            saved: 0,
        }
    }

    // How many heap tops there are so far.
    #[tactic(auto, using(tables::proofs::Lengths::depth_fits))]
    pub(super) fn heap_tops(&self) -> u64
        ensures count { result ≡ length (tables_of self.now.memory).choices }
        ensures within { result ≤ 64 }
    {
        self.memory.depth() as u64
    }

    fn no_tops(&self) -> bool
        ensures { (l : Listing) → Holds self.now l → result ≡ no_tops l }
    {
        self.trail_tops == 0 && self.saved == 0
    }

    fn no_choices(&self) -> bool
        ensures { (l : Listing) → Holds self.now l → result ≡ no_choices l }
    {
        self.heap_tops() == 0 && self.no_tops()
    }

    fn no_trail(&self) -> bool
        ensures { (l : Listing) → Holds self.now l → result ≡ no_trail l }
    {
        self.memory.trailed() == 0 && self.no_choices()
    }

    fn no_registers(&self) -> bool
        ensures { (l : Listing) → Holds self.now l → result ≡ no_registers l }
    {
        self.registers == 0 && self.no_trail()
    }

    // Whether the line may come next.
    pub(crate) fn follows(&self, item: Item) -> bool
        ensures { (l : Listing) → Holds self.now l → result ≡ follows l item }
    {
        match item {
            Item::Heap(i, _) => i == self.memory.used() as u64 && i < 4096 && self.no_registers(),
            Item::Register(i, _) => i == self.registers && i < 8 && self.no_trail(),
            Item::Trail(i, _) => {
                i == self.memory.trailed() as u64
                    && i < 4096
                    && self.registers == 8
                    && self.no_choices()
            }
            Item::HeapTop(i, _) => i == self.heap_tops()
                && i < 64
                && self.registers == 8
                && self.no_tops(),
            Item::TrailTop(i, _) => {
                i == self.trail_tops
                    && i < self.heap_tops()
                    && self.registers == 8
                    && self.saved == 0
            }
            Item::Saved(i, _) => {
                i == self.saved
                    && i < 8 * self.heap_tops()
                    && self.registers == 8
                    && self.trail_tops == self.heap_tops()
            }
        }
    }

    // Whether nothing is missing.
    pub(crate) fn whole(&self) -> bool
        ensures { (l : Listing) → Holds self.now l → result ≡ whole l }
    {
        self.registers == 8
            && self.trail_tops == self.heap_tops()
            && self.saved == 8 * self.heap_tops()
    }
}
