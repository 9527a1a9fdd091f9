ghost use Rattle.std.specs.Prelude.{◌≡◌, ◌^◌, ◌<◌, true};
ghost use Rattle.cells.specs.Cells.{word_of, cell_of, in_range, encoded, decoded, bits29, signed29};
ghost use Rattle.cells.specs.Laws.{DecodeEncoded, EncodeDecoded};

use super::refusal::Refusal;

// What a cell holds. Numbers of any size can be named, and only those in range have a word: so the range is no invariant,
// and what writes a cell requires it.
#[derive(Clone, Copy, PartialEq, Eq, Debug)]
pub enum Cell {
    // refers to a cell by its number; a cell that refers to itself is an unbound variable
    Reference(u64),
    // points to a functor's cell by its number
    Pointer(u64),
    // a functor; its arguments are the cells after it
    Functor { name: u64, arity: u64 },
    Atom(u64),
    Integer(i64),
}

impl Cell {
    // Whether the numbers of the cell keep the ranges of their kind.
    pub fn in_range(self) -> bool
        ensures { result ≡ in_range self }
    {
        match self {
            Cell::Reference(n) => n < 4096,
            Cell::Pointer(n) => n < 4096,
            Cell::Functor { name, arity } => name < 65536 && 0 < arity && arity <= 32,
            Cell::Atom(n) => n < 65536,
            Cell::Integer(z) => -268_435_456 <= z && z < 268_435_456,
        }
    }

    // The word of a cell in range: the low three bits are the kind's number, the other 29 its value.
    pub fn word(self) -> u32
        requires { in_range self ≡ true }
        ensures { result ≡ word_of self }
    {
        match self {
            Cell::Reference(n) => n as u32 * 8,
            Cell::Pointer(n) => n as u32 * 8 + 1,
            Cell::Functor { name, arity } => (name as u32 * 64 + arity as u32) * 8 + 2,
            Cell::Atom(n) => n as u32 * 8 + 3,
            Cell::Integer(z) => low_bits(z) * 8 + 4,
        }
    }

    // The word of a cell, or refusal 4 where a number is out of range.
    pub fn encode(self) -> Result<u32, Refusal>
        ensures result { result ≡ encoded self }
        ensures law { DecodeEncoded }
    {
        if self.in_range() {
            Ok(self.word())
        } else {
            Err(Refusal::OutOfRange)
        }
    }

    // What a word says by its kind and its value, in range or not; a word of no kind reads as an integer.
    pub fn of(word: u32) -> Cell
        ensures { result ≡ cell_of word }
    {
        let value = word / 8;
        match word % 8 {
            0 => Cell::Reference(value as u64),
            1 => Cell::Pointer(value as u64),
            2 => Cell::Functor {
                name: (value / 64) as u64,
                arity: (value % 64) as u64,
            },
            3 => Cell::Atom(value as u64),
            _ => Cell::Integer(signed(value)),
        }
    }

    // The cell of a word, or refusal 4 where the kind is none of the five or a number is out of range.
    pub fn decode(word: u32) -> Result<Cell, Refusal>
        ensures result { result ≡ decoded word }
        ensures law { EncodeDecoded }
    {
        let cell = Cell::of(word);
        // kinds 5 to 7 are no cell's
        if word % 8 <= 4 && cell.in_range() {
            Ok(cell)
        } else {
            Err(Refusal::OutOfRange)
        }
    }
}

// The 29 bits of an integer in range, in two's complement.
fn low_bits(z: i64) -> u32
    requires { in_range (Cell.Integer z) ≡ true }
    ensures { result ≡ bits29 z }
{
    z.rem_euclid(536_870_912) as u32
}

// The integer that 29 bits stand for.
fn signed(value: u32) -> i64
    requires { value < 2 ^ 29 }
    ensures { result ≡ signed29 value }
{
    if value < 268_435_456 {
        value as i64
    } else {
        value as i64 - 536_870_912
    }
}
