// Runs the cases of loading that are given on standard input. For each it prints what was answered, and whether that
// was expected. docs/IMAGES.md, "Test cases", says how cases are written.
#![tactic(auto)]

ghost use Rattle.std.specs.Prelude.{◌<◌, IfSome};

use loading::{Numbers, describe, describe_whole};
use std::alloc::{AllocError, AllocFailed, Global};
use std::io;
use std::io::Read;
use std::ops::Range;

// A line of the data.
#[derive(Drop)]
enum Entry<'a> {
    // an empty line or a comment, which is read well, unlike a line for which read_entry answers None
    Nothing,
    // the name of a case, with which it begins
    Name(&'a str),
    Part(Part<'a>),
}

// What a line says of a case.
#[derive(Drop)]
enum Part<'a> {
    Wanted(Wanted),
    // a line of the image for each number of a span
    Lines(Lines<'a>),
    // a line of the image
    Line(&'a str),
}

// What is to be said of an image.
#[derive(Clone, Copy)]
enum Wanted {
    Described(Numbers),
    // the image may be of any length
    Whole(Numbers),
}

// In the pattern `%` stands for each of the numbers in turn, `&` for the one after it.
#[derive(Drop)]
struct Lines<'a> {
    numbers: Range<u64>,
    pattern: &'a str,
}

// No pattern goes to a higher number.
const HIGHEST: u64 = 9_999;

// A case.
#[derive(Drop)]
struct Case {
    name: String,
    wanted: Option<Wanted>,
    image: Vec<u8>,
}

// The case whose lines are being read, how many cases came out as expected and how many did not, and how many lines of the
// data were not read.
#[derive(Drop)]
struct Run {
    case: Option<Case>,
    right: u64,
    wrong: u64,
    unread: u64,
}

// Why a line of the data is not taken.
#[derive(Drop)]
enum LineError {
    // it cannot be read, stands before the first case, or says what was said already
    NotRead,
    Io(io::Error),
}

impl From<io::Error> for LineError {
    fn from(error: io::Error) -> LineError {
        LineError::Io(error)
    }
}

impl From<AllocError> for LineError {
    fn from(error: AllocError) -> LineError {
        LineError::Io(io::Error::from(error))
    }
}

impl<T: Drop> From<AllocFailed<T>> for LineError {
    fn from(failed: AllocFailed<T>) -> LineError {
        LineError::Io(io::Error::from(failed))
    }
}

// Six numbers with one space between. No TryFrom: an error would have nothing to say.
fn read_numbers(text: &str) -> Option<Numbers> {
    let mut words = text.split(' ');
    let mut numbers = [0; 6];
    for number in numbers.iter_mut() {
        *number = words.next()?.parse::<u64>().ok()?;
    }
    match words.next() {
        None => Some(Numbers(numbers)),
        Some(_) => None,
    }
}

// The first number, the last and the pattern, with one space between. No TryFrom: an error would have nothing to say.
fn read_lines<'a>(text: &'a str) -> Option<Lines<'a>> {
    let (first, rest) = text.split_once(' ')?;
    let (last, pattern) = rest.split_once(' ')?;
    let start = first.parse::<u64>().ok()?;
    let last = last.parse::<u64>().ok()?;
    if start > last || last > HIGHEST {
        return None;
    }
    Some(Lines {
        numbers: start..last + 1,
        pattern,
    })
}

// No TryFrom: an error would have nothing to say.
fn read_entry<'a>(line: &'a str) -> Option<Entry<'a>> {
    if line.is_empty() || line.starts_with('#') {
        return Some(Entry::Nothing);
    }
    if let Some(name) = line.strip_prefix("= ") {
        return Some(Entry::Name(name));
    }
    let part = if let Some(numbers) = line.strip_prefix("> ") {
        Part::Wanted(Wanted::Described(read_numbers(numbers)?))
    } else if let Some(numbers) = line.strip_prefix(">> ") {
        Part::Wanted(Wanted::Whole(read_numbers(numbers)?))
    } else if let Some(lines) = line.strip_prefix("* ") {
        Part::Lines(read_lines(lines)?)
    } else if line.starts_with(['=', '>', '*']) {
        return None;
    } else {
        Part::Line(line)
    };
    Some(Entry::Part(part))
}

// Small letters alone, where char::to_digit would take large ones too.
fn hex_digit(b: u8) -> Option<u8>
    ensures { IfSome result (λ d. d < 16) }
{
    match b {
        b'0'..=b'9' => Some(b - b'0'),
        b'a'..=b'f' => Some(b - b'a' + 10),
        _ => None,
    }
}

// The byte that two hexadecimal digits stand for.
fn hex_byte(high: u8, low: u8) -> Option<u8> {
    Some(hex_digit(high)? * 16 + hex_digit(low)?)
}

// Appends a line to an image, with its byte 10. `\` and two hexadecimal digits stand for a byte; `\` at the end leaves out
// the byte 10.
fn add_line(image: &mut Vec<u8>, line: &[u8]) -> Result<(), LineError> {
    let mut rest = line;
    loop {
        rest = match rest {
            [] => return Ok(image.push(b'\n')?),
            [b'\\'] => return Ok(()),
            [b'\\', high, low, rest @ ..] => {
                image.push(hex_byte(*high, *low).ok_or(LineError::NotRead)?)?;
                rest
            }
            [b'\\', _] => return Err(LineError::NotRead),
            [b, rest @ ..] => {
                image.push(*b)?;
                rest
            }
        };
    }
}

// The pattern with n for each `%` and the number after it for each `&`.
fn filled(heap: Global, pattern: &str, n: u64) -> Result<String, AllocError> {
    let here = n.to_string(heap)?;
    let next = n.wrapping_add(1).to_string(heap)?;
    let mut line = String::new(heap);
    for c in pattern.chars() {
        match c {
            '%' => line.push_str(here.as_str())?,
            '&' => line.push_str(next.as_str())?,
            _ => line.push(c)?,
        }
    }
    Ok(line)
}

fn add_lines(heap: Global, image: &mut Vec<u8>, lines: Lines) -> Result<(), LineError> {
    for n in lines.numbers {
        let line = filled(heap, lines.pattern, n)?;
        add_line(image, line.as_bytes())?;
    }
    Ok(())
}

impl Case {
    fn take(&mut self, heap: Global, part: Part) -> Result<(), LineError> {
        match part {
            Part::Wanted(wanted) => match self.wanted.replace(wanted) {
                None => Ok(()),
                Some(_) => Err(LineError::NotRead),
            },
            Part::Lines(lines) => add_lines(heap, &mut self.image, lines),
            Part::Line(line) => add_line(&mut self.image, line.as_bytes()),
        }
    }
}

impl Run {
    // Takes a line of the data. A name closes the case before it and begins the next.
    fn take(&mut self, rt: &HostRuntime, line: &str) -> Result<(), LineError> {
        match read_entry(line).ok_or(LineError::NotRead)? {
            Entry::Nothing => Ok(()),
            Entry::Name(name) => {
                self.close(rt)?;
                self.case = Some(Case {
                    name: String::from_str(rt.alloc(), name)?,
                    wanted: None,
                    image: Vec::new(rt.alloc()),
                });
                Ok(())
            }
            Entry::Part(part) => {
                let case = self.case.as_mut().ok_or(LineError::NotRead)?;
                case.take(rt.alloc(), part)
            }
        }
    }

    // Prints what came of the case whose lines were read.
    fn close(&mut self, rt: &HostRuntime) -> io::Result<()> {
        let Some(
            Case {
                name,
                wanted,
                image,
            },
        ) = self.case.take()
        else {
            return Ok(());
        };
        let image = image.as_slice();
        let (described, wanted) = match wanted {
            Some(Wanted::Described(wanted)) => (describe(image), wanted),
            Some(Wanted::Whole(wanted)) => (describe_whole(image), wanted),
            None => {
                self.wrong = self.wrong.saturating_add(1);
                return println!(rt; "{name}: NOTHING WANTED");
            }
        };
        let got = Numbers::from(described);
        if got == wanted {
            self.right = self.right.saturating_add(1);
            println!(rt; "{name}: {got} ok")
        } else {
            self.wrong = self.wrong.saturating_add(1);
            println!(rt; "{name}: {got} DIFFERS, wanted {wanted}")
        }
    }
}

fn main(rt: HostRuntime) -> io::Result<()> {
    let mut text = String::new(rt.alloc());
    rt.stdin().read_to_string(&mut text)?;
    let mut run = Run {
        case: None,
        right: 0,
        wrong: 0,
        unread: 0,
    };
    for (i, line) in text.as_str().lines().enumerate() {
        match run.take(&rt, line) {
            Ok(()) => {}
            Err(LineError::NotRead) => {
                run.unread = run.unread.saturating_add(1);
                let number = i + 1;
                println!(rt; "line {number} NOT READ: {line}")?;
            }
            Err(LineError::Io(error)) => return Err(error),
        }
    }
    run.close(&rt)?;
    let (right, wrong, unread) = (run.right, run.wrong, run.unread);
    println!(rt; "{right} ok, {wrong} not ok, {unread} lines not read")
}
