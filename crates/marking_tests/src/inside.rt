// Whether all words of a memory lead inside it, which marking requires. Memories that keep the rules do.
ghost use Rattle.std.specs.Prelude.{◌≡◌, ℕ, ◌<◌, true};
ghost use Rattle.tables.specs.Views.{tables_of};
ghost use Rattle.heaps.specs.Leads.{heap_of, LeadsBy};
ghost use Rattle.heaps.specs.Reached.{roots};
ghost use Rattle.marking.specs.Marking.{CellsLead, WordsLead};

use cells::Cell;
use reading::leads;
use tables::Memory;

fn word_inside(at: u64, word: Cell) -> bool
    requires { at < 4096 }
    ensures { result ≡ true → (k : ℕ) → LeadsBy at word k → k < 4096 }
{
    let (start, count) = leads(at, word);
    start <= 4096 && count <= 4096 - start
}

fn words_inside(words: &[Cell]) -> bool
    ensures { result ≡ true → WordsLead words.now }
{
    // a loop, since the proof of `all` does not close with a test whose contract speaks of a yes alone
    for word in words {
        if !word_inside(0, *word) {
            return false;
        }
    }
    true
}

fn cells_inside(memory: &Memory) -> bool
    ensures { result ≡ true → CellsLead (heap_of (tables_of memory.now).heap) }
{
    // a loop, as in words_inside
    for i in 0..4096 {
        if !word_inside(i as u64, memory.cell(i)) {
            return false;
        }
    }
    true
}

pub(crate) fn inside(memory: &Memory) -> bool
    ensures { result ≡ true → CellsLead (heap_of (tables_of memory.now).heap) × WordsLead (roots (tables_of memory.now)) }
{
    if !cells_inside(memory) {
        return false;
    }
    if !words_inside(&memory.registers()) {
        return false;
    }
    // a loop, as in words_inside
    for k in 0..memory.depth() {
        if !words_inside(&memory.saved_registers(k)) {
            return false;
        }
    }
    true
}
