// Words that lead wrong. References and pointers have a function each, since each has its own rule.
ghost use Rattle.std.specs.Prelude.{◌≡◌};
ghost use Rattle.tables.specs.Tables.{used};
ghost use Rattle.tables.specs.Views.{tables_of};
ghost use Rattle.heaps.specs.Leads.{heap_of};
ghost use Rattle.heaps.specs.RuleTests.{stray_reference, stray_pointer, stray_word};

use super::kinds::is_functor;
use cells::Cell;
use tables::Memory;

// Whether a word is a reference that leads to no cell in use, or to a functor.
pub fn stray_reference(memory: &Memory, word: Cell) -> bool
    ensures { result ≡ stray_reference (heap_of (tables_of memory.now).heap) (used (tables_of memory.now)) word }
{
    match word {
        Cell::Reference(n) => memory.used() as u64 <= n || is_functor(memory.cell(n as usize)),
        _ => false,
    }
}

// Whether a word is a pointer that leads to no cell in use, or to no functor.
pub fn stray_pointer(memory: &Memory, word: Cell) -> bool
    ensures { result ≡ stray_pointer (heap_of (tables_of memory.now).heap) (used (tables_of memory.now)) word }
{
    match word {
        Cell::Pointer(n) => memory.used() as u64 <= n || !is_functor(memory.cell(n as usize)),
        _ => false,
    }
}

// Whether a register's word is a functor, or a reference or a pointer that leads wrong.
pub fn stray_word(memory: &Memory, word: Cell) -> bool
    ensures { result ≡ stray_word (heap_of (tables_of memory.now).heap) (used (tables_of memory.now)) word }
{
    is_functor(word) || stray_reference(memory, word) || stray_pointer(memory, word)
}
