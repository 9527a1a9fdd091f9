// Times both mark keepers on a full heap.
// A round empties the set, marks every cell and asks for each of them.
// Standard output has what was found, and standard error the time.
#![tactic(auto)]

use marks::{BitMarks, ByteMarks, CELLS, Marks, count_below};
use std::io;
use std::time::Instant;

const ROUNDS: u64 = 1000;

// Whether every cell was found after it was marked.
fn full_round<M: Marks>(marks: &mut M) -> bool {
    marks.clear();
    for n in 0..CELLS {
        marks.mark(n);
    }
    count_below(marks, CELLS) == CELLS
}

// How many of the rounds found every cell.
fn full_rounds<M: Marks>(marks: &mut M) -> usize {
    (0..ROUNDS).filter(|_| full_round(marks)).count()
}

fn report<M: Marks>(rt: &HostRuntime, name: &str, marks: &mut M) -> io::Result<()> {
    let start = Instant::now(rt)?;
    let full = full_rounds(marks);
    let time = start.elapsed(rt)?.as_micros();
    println!(rt; "{name}: {CELLS} cells marked and found in {full} of {ROUNDS} rounds")?;
    eprintln!(rt; "{name}: {time} microseconds")
}

fn main(rt: HostRuntime) -> io::Result<()> {
    report(&rt, "bytes", &mut ByteMarks::new())?;
    report(&rt, "bits", &mut BitMarks::new())
}
