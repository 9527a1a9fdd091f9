// Reads an image from standard input and prints what there is to say of it, as six numbers:
// refusal, broken rule, line, and the cells, trail entries and choice points in use.
#![tactic(auto)]

use loading::{Numbers, describe};
use std::io;
use std::io::Read;

fn main(rt: HostRuntime) -> io::Result<()> {
    let mut image = Vec::new(rt.alloc());
    // One byte more than is looked at tells that an image is too long.
    rt.stdin().take(65_537).read_to_end(&mut image)?;
    let numbers = Numbers::from(describe(image.as_slice()));
    println!(rt; "{numbers}")
}
