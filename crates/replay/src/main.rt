// Reads a list of calls from standard input, one to a line, carries them out on one store, and prints each line with
// its answer. docs/REPLAY.md has the lines and the answers.
#![tactic(auto)]

use calls::Answer;
use replaying::{Bench, Entry, Reply, parse};
use std::io;
use std::io::{BufRead, BufReader, BufWriter, Write};

// Byte 10 ends a line; the last line may lack it.
fn without_end(line: &[u8]) -> &[u8] {
    line.strip_suffix(b"\n").unwrap_or(line)
}

// Reads so many lines, or those that are left, one after another into `image`.
fn read_image<R: BufRead>(input: &mut R, lines: u64, image: &mut Vec<u8>) -> io::Result<()> {
    image.clear();
    for _ in 0..lines {
        if input.read_until(b'\n', image)? == 0 {
            break;
        }
    }
    Ok(())
}

// Loads an image and prints the answer, and a line more where a structure that was half made is given up.
fn load<W: Write>(bench: &mut Bench, image: &[u8], out: &mut W) -> io::Result<()> {
    let (reply, voided) = match bench.load(image) {
        Ok(voided) => (Reply::Answered(Answer::Nothing), voided),
        Err(fault) => (Reply::NotLoaded(fault), false),
    };
    writeln!(out, " -> {reply}")?;
    if voided {
        out.write_all(b"slip voided\n")?;
    }
    Ok(())
}

// Carries out each line of standard input and prints its answer.
fn replay(rt: &HostRuntime, bench: &mut Bench) -> io::Result<()> {
    let mut input = BufReader::new(rt.alloc(), rt.stdin())?;
    let mut out = BufWriter::new(rt.alloc(), rt.stdout())?;
    let mut line = Vec::new(rt.alloc());
    let mut image = Vec::new(rt.alloc());
    // by hand, since an image is read from the same input between two lines; the bound ends the loop for the proof
    for _ in 0..u64::MAX {
        line.clear();
        if input.read_until(b'\n', &mut line)? == 0 {
            break;
        }
        let text = without_end(line.as_slice());
        out.write_all(text)?;
        match parse(text) {
            Some(Entry::Note) => out.write_all(b"\n")?,
            Some(Entry::Request(request)) => {
                let reply = bench.perform(request);
                writeln!(out, " -> {reply}")?;
            }
            Some(Entry::Load { lines }) => {
                read_image(&mut input, lines, &mut image)?;
                load(bench, image.as_slice(), &mut out)?;
            }
            None => {
                let reply = Reply::NotACall;
                writeln!(out, " -> {reply}")?;
            }
        }
    }
    out.flush()
}

fn main(rt: HostRuntime) -> io::Result<()> {
    let mut bench = Bench::new();
    let ran = replay(&rt, &mut bench);
    let voided = bench.finish();
    ran?;
    if voided {
        println!(rt; "slip voided")?;
    }
    Ok(())
}
