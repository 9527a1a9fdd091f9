// The rule task of a handheld instrument for pipe welds: echoes are taken for the root of the weld, for flaws or for
// geometry, by rules that are tried on a store. The echoes come from standard input; where that is empty, an example is taken.
#![tactic(auto)]

ghost use Rattle.std.specs.Prelude.{◌≡◌, None};
ghost use Rattle.tables.specs.Tables.{set_up};
ghost use Rattle.store.specs.Called.{state};

use calls::{Answer, Call};
use classifying::{Echo, Label, RULES, echo_in, verdict};
use std::io;
use std::io::{BufRead, BufReader};

mod machine;
mod making;
mod step;
mod task;
mod trace;

use machine::Machine;
use step::Step;

// The echoes that are classified where none are given: one for each rule, and one that no rule explains.
const EXAMPLE: [Echo; 6] = [
    Echo {
        offset: 2,
        depth: 95,
        amplitude: 80,
    },
    Echo {
        offset: 3,
        depth: 97,
        amplitude: 35,
    },
    Echo {
        offset: 40,
        depth: 6,
        amplitude: 30,
    },
    Echo {
        offset: 95,
        depth: 60,
        amplitude: 12,
    },
    Echo {
        offset: 12,
        depth: 52,
        amplitude: 18,
    },
    Echo {
        offset: 110,
        depth: 40,
        amplitude: 30,
    },
];

// How many echoes were taken for what.
#[derive(Clone, Copy, Default)]
struct Tally {
    root: u64,
    flaw: u64,
    geometry: u64,
}

impl Tally {
    fn count(&mut self, label: Label) {
        match label {
            Label::Root => self.root = self.root.saturating_add(1),
            Label::Flaw => self.flaw = self.flaw.saturating_add(1),
            Label::Geometry => self.geometry = self.geometry.saturating_add(1),
        }
    }
}

// The store that the rules are tried on, which is empty between echoes, what is printed, and the tally.
#[derive(Drop)]
struct Inspection<'a> {
    machine: Machine<'a>,
    tally: Tally,
    ghost empty: { state machine.store ≡ record { tables = set_up; half = None } },
}

impl<'a> Inspection<'a> {
    fn new(rt: &'a HostRuntime) -> Inspection<'a> {
        Inspection {
            machine: Machine::new(rt),
            tally: Tally::default(),
        }
    }

    // Takes the echo of a line. Blank lines and comments are passed over.
    fn read(&mut self, number: u64, line: &[u8]) {
        match line {
            [] | [b'#', ..] => {}
            _ => match echo_in(line) {
                Some(echo) => self.classify(echo),
                None => self
                    .machine
                    .trace
                    .say(format_args!("line {number}: no echo")),
            },
        }
    }

    // Prints what an echo is taken for. One that no rule explains, or whose rules could not be tried, is a flaw.
    fn classify(&mut self, echo: Echo) {
        let (offset, depth, amplitude) = (echo.offset, echo.depth, echo.amplitude);
        let (zone, strength) = (echo.zone(), echo.strength());
        self.machine.trace.say(format_args!(
            "echo: offset {offset}, depth {depth}, amplitude {amplitude}: {zone}, {strength}",
        ));
        let label = match self.machine.explain(&RULES, zone, strength) {
            Ok(found) => {
                let label = found.unwrap_or(Label::Flaw);
                if label != verdict(zone, strength) {
                    self.machine.trace.say("  MISMATCH");
                }
                label
            }
            Err(why) => {
                self.machine.trace.say(format_args!("  refused: {why:?}"));
                Label::Flaw
            }
        };
        self.machine.trace.say(format_args!("  verdict: {label}"));
        self.tally.count(label);
    }

    // Prints the tally and how much of the store is in use.
    fn finish(mut self) -> io::Result<()> {
        let (root, flaw, geometry) = (self.tally.root, self.tally.flaw, self.tally.geometry);
        self.machine.trace.say(format_args!(
            "verdicts: {root} root, {flaw} flaw, {geometry} geometry"
        ));
        let call = Call::Usage;
        let answer = Answer::from(self.machine.store.usage());
        self.machine.trace.say(Step { call, answer });
        self.machine.trace.finish()
    }
}

// Classifies the echoes of standard input. Answers whether there was any input.
fn read_all(rt: &HostRuntime, inspection: &mut Inspection) -> io::Result<bool> {
    let mut input = BufReader::new(rt.alloc(), rt.stdin())?;
    let mut line = Vec::new(rt.alloc());
    // One buffer for all lines; the bound ends the loop for the proof.
    for number in 1..u64::MAX {
        line.clear();
        if input.read_until(b'\n', &mut line)? == 0 {
            return Ok(number > 1);
        }
        let text = line.as_slice();
        inspection.read(number, text.strip_suffix(b"\n").unwrap_or(text));
    }
    Ok(true)
}

fn main(rt: HostRuntime) -> io::Result<()> {
    let mut inspection = Inspection::new(&rt);
    if !read_all(&rt, &mut inspection)? {
        for echo in EXAMPLE {
            inspection.classify(echo);
        }
    }
    inspection.finish()
}
