// The example task: an echo is put into the tables of a store, labelled, and read back.
#![tactic(auto)]

use cells::Cell;
use std::io;
use tables::Memory;

mod steps;

use steps::{push, set, write};

// An echo is echo(Depth, Height, Label); the label is not known at first.
const ECHO: u64 = 7;

const ROOT: u64 = 1;

fn main(rt: HostRuntime) -> io::Result<()> {
    let mut memory = Memory::new();
    let used = memory.used();
    println!(rt; "set-up: {used} cells in use, atom 0 in each register")?;
    let cells = [
        Cell::Functor {
            name: ECHO,
            arity: 3,
        },
        Cell::Integer(42),
        Cell::Integer(310),
        Cell::Reference(3),
    ];
    for cell in cells {
        match push(&mut memory, cell) {
            Ok(i) => println!(rt; "cell {i} takes {cell:?}")?,
            Err(why) => println!(rt; "{cell:?} is refused: {why:?}")?,
        }
    }
    match set(&mut memory, 0, Cell::Pointer(0)) {
        Ok(()) => println!(rt; "X0 points at the echo")?,
        Err(why) => println!(rt; "X0 is refused: {why:?}")?,
    }
    try_labels(&rt, &mut memory)?;
    read_back(&rt, &memory)
}

// Labels the echo: a label out of range is refused and changes nothing.
fn try_labels(rt: &HostRuntime, memory: &mut Memory) -> io::Result<()> {
    for label in [Cell::Atom(65_536), Cell::Atom(ROOT)] {
        match write(memory, 3, label) {
            Ok(()) => println!(rt; "cell 3, the label, takes {label:?}")?,
            Err(why) => println!(rt; "cell 3, the label, does not take {label:?}: {why:?}")?,
        }
    }
    Ok(())
}

// Prints what the tables hold. Cells are read by number, since a memory keeps words and lends no slice of cells.
fn read_back(rt: &HostRuntime, memory: &Memory) -> io::Result<()> {
    for i in 0..memory.used() {
        let cell = memory.cell(i);
        println!(rt; "heap {i}: {cell:?}")?;
    }
    for (r, cell) in memory.registers().iter().enumerate() {
        println!(rt; "X{r}: {cell:?}")?;
    }
    Ok(())
}
