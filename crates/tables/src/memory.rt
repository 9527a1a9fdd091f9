ghost use Rattle.std.specs.Prelude.{◌≡◌, length};

use super::stack::Stack;

mod choices;
mod heap;
mod registers;
mod trail;

// What a choice point keeps: the registers as words, the number of cells and of trail entries when it was opened.
#[derive(Clone, Copy)]
pub struct ChoicePoint {
    saved: [u32; 8],
    heap_top: u16,
    trail_top: u16,
    ghost eight: { length saved ≡ 8 },
}

// The tables of a store. They keep no rules beyond their lengths: a call breaks the table rules on its way, so what rests on
// the rules requires `Stands` of the tables, and no type has it as an invariant. There is no `impl Model`, as at `Stack`.
#[derive(Drop)]
pub struct Memory {
    heap: Stack<u32, 4096>,
    trail: Stack<u16, 4096>,
    choices: Stack<ChoicePoint, 64>,
    registers: [u32; 8],
    ghost eight: { length registers ≡ 8 },
}
