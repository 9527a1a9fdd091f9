use super::inside::inside;
use cells::Cell;
use marking::{Pending, mark_roots};
use marks::{BitMarks, ByteMarks, CELLS, Marks, count_below};
use std::test::Fail;
use tables::Memory;

// A cell that does not fit fails, here and in `hold`. Crates of tests share no code.
fn push(memory: &mut Memory, cell: Cell) -> Result<(), Fail> {
    if memory.used() < 4096 && cell.in_range() {
        memory.push_cell(cell);
        return Ok(());
    }
    Err(Fail::new("no such cell"))
}

fn hold(memory: &mut Memory, r: usize, cell: Cell) -> Result<(), Fail> {
    if r < 8 && cell.in_range() {
        memory.set_register(r, cell);
        return Ok(());
    }
    Err(Fail::new("no such register"))
}

// Fails where the two differ. Crates of tests share no code; `assert_eq!` would take a handle that may end the process,
// which only a test itself has.
fn check_eq<T: PartialEq + Copy>(found: T, expected: T) -> Result<(), Fail> {
    if found == expected {
        return Ok(());
    }
    Err(Fail::new("found another value than expected"))
}

// How many cells mark_roots marks.
fn reached<M: Marks>(memory: &Memory, marks: &mut M) -> Result<u64, Fail> {
    if !inside(memory) {
        return Err(Fail::new("a word leads out of the memory"));
    }
    let mut pending = Pending::new();
    mark_roots(memory, marks, &mut pending);
    Ok(count_below(marks, CELLS))
}

// No root leads anywhere.
fn nothing<M: Marks>(marks: &mut M) -> Result<(), Fail> {
    let mut memory = Memory::new();
    check_eq(reached(&memory, marks)?, 0)?;
    push(&mut memory, Cell::Reference(0))?;
    hold(&mut memory, 0, Cell::Integer(-7))?;
    check_eq(reached(&memory, marks)?, 0)
}

// A chain of references through the whole heap.
fn chain<M: Marks>(marks: &mut M) -> Result<(), Fail> {
    let mut memory = Memory::new();
    push(&mut memory, Cell::Reference(0))?;
    for i in 0..4095 {
        push(&mut memory, Cell::Reference(i))?;
    }
    hold(&mut memory, 3, Cell::Reference(1000))?;
    check_eq(reached(&memory, marks)?, 1001)?;
    hold(&mut memory, 7, Cell::Reference(4095))?;
    check_eq(reached(&memory, marks)?, 4096)
}

// 600 nested structures f(X, X), which share their arguments.
fn shared<M: Marks>(marks: &mut M) -> Result<(), Fail> {
    let mut memory = Memory::new();
    push(&mut memory, Cell::Reference(0))?;
    let mut inner = Cell::Reference(0);
    for i in 0..600 {
        push(&mut memory, Cell::Functor { name: 1, arity: 2 })?;
        push(&mut memory, inner)?;
        push(&mut memory, inner)?;
        inner = Cell::Pointer(3 * i + 1);
    }
    hold(&mut memory, 0, inner)?;
    check_eq(reached(&memory, marks)?, 1801)
}

// A structure of arity 32, and what stands beside it.
fn wide<M: Marks>(marks: &mut M) -> Result<(), Fail> {
    let mut memory = Memory::new();
    push(&mut memory, Cell::Atom(1))?;
    push(&mut memory, Cell::Functor { name: 1, arity: 32 })?;
    for i in 0..33 {
        push(&mut memory, Cell::Integer(i))?;
    }
    hold(&mut memory, 0, Cell::Pointer(1))?;
    check_eq(reached(&memory, marks)?, 33)?;
    check_eq(marks.marked(0), false)?;
    check_eq(marks.marked(33), true)?;
    check_eq(marks.marked(34), false)
}

// Saved registers are roots too.
fn saved<M: Marks>(marks: &mut M) -> Result<(), Fail> {
    let mut memory = Memory::new();
    for i in 0..3 {
        push(&mut memory, Cell::Reference(i))?;
    }
    for i in 0..2 {
        hold(&mut memory, 7, Cell::Reference(i))?;
        if memory.depth() >= 64 {
            return Err(Fail::new("no room for a choice point"));
        }
        memory.push_choice();
    }
    hold(&mut memory, 7, Cell::Atom(0))?;
    check_eq(reached(&memory, marks)?, 2)?;
    check_eq(marks.marked(2), false)
}

fn all<M: Marks>(marks: &mut M) -> Result<(), Fail> {
    nothing(marks)?;
    chain(marks)?;
    shared(marks)?;
    wide(marks)?;
    saved(marks)
}

#[test]
fn bytes() -> Result<(), Fail> {
    all(&mut ByteMarks::new())
}

#[test]
fn bits() -> Result<(), Fail> {
    all(&mut BitMarks::new())
}
