ghost use Rattle.std.specs.Prelude.{◌≡◌, ◌-◌, true, false, cond, Some, None, Ok, Err};
ghost use Rattle.std.specs.Char.{is_ascii_digit};
ghost use Rattle.lines.specs.Words.{no_leading_zero, natural64, negative, integer64, kind_of, part_named, Reads, word_shaped, part_in, kind_in, natural_in, integer_in};

use super::fault::WordFault;

// The kind that a letter of an image stands for.
#[derive(Clone, Copy, PartialEq, Eq)]
pub enum Kind {
    Reference,
    Pointer,
    Functor,
    Atom,
    Integer,
    Number,
}

// The part of the tables that a line belongs to.
#[derive(Clone, Copy, PartialEq, Eq)]
pub enum Part {
    Heap,
    Register,
    Trail,
    HeapTop,
    TrailTop,
    Saved,
}

// A word of an image line, sorted by how it begins and how long it is. Its bytes are borrowed from the line.
#[derive(Clone, Copy)]
pub enum Token<'a> {
    Name(&'a [u8]),
    Letter(&'a [u8]),
    Number(&'a [u8]),
}

// The kind of a letter. No TryFrom: an error would have nothing to say.
fn kind_of(letter: u8) -> Option<Kind>
    ensures { result ≡ kind_of letter }
{
    match letter as char {
        'r' => Some(Kind::Reference),
        's' => Some(Kind::Pointer),
        'f' => Some(Kind::Functor),
        'a' => Some(Kind::Atom),
        'i' => Some(Kind::Integer),
        'n' => Some(Kind::Number),
        _ => None,
    }
}

// Some bytes, of which the first is no 0 where there are more.
pub fn no_leading_zero(word: &[u8]) -> bool
    ensures { result ≡ no_leading_zero word.now }
{
    match word {
        [] => false,
        [_] => true,
        [first, _, ..] => *first != b'0',
    }
}

// The value of a decimal digit.
fn digit_of(byte: u8) -> Option<u64>
    ensures { result ≡ cond (is_ascii_digit byte) (Some (byte - 48)) None }
{
    match byte {
        b'0'..=b'9' => Some((byte - b'0') as u64),
        _ => None,
    }
}

// The number of at most 64 bits that a word of digits stands for. It is read in one pass, which ends at the first byte that
// is no digit, or at the first digit that 64 bits have no room for; `from_utf8` and `parse` would each go through the word again.
pub fn natural(word: &[u8]) -> Option<u64>
    ensures { result ≡ natural64 word.now }
{
    if !no_leading_zero(word) {
        return None;
    }
    let mut n: u64 = 0;
    for byte in word {
        let digit = digit_of(*byte)?;
        n = n.checked_mul(10)?.checked_add(digit)?;
    }
    Some(n)
}

// The integer of the given size below 0; there is no minus before 0.
fn minus(size: u64) -> Option<i64>
    ensures { result ≡ negative (Some size) }
{
    let below = i64::try_from(size.checked_sub(1)?).ok()?;
    Some(-1 - below)
}

// The integer of 64 bits that a word stands for.
pub fn integer(word: &[u8]) -> Option<i64>
    ensures { result ≡ integer64 word.now }
{
    match word {
        [b'-', size @ ..] => minus(natural(size)?),
        _ => i64::try_from(natural(word)?).ok(),
    }
}

// The part of a name. No TryFrom: an error would have nothing to say.
fn part_named(name: &[u8]) -> Option<Part>
    ensures { result ≡ part_named name.now }
{
    match name {
        b"heap" => Some(Part::Heap),
        b"reg" => Some(Part::Register),
        b"trail" => Some(Part::Trail),
        b"htop" => Some(Part::HeapTop),
        b"ttop" => Some(Part::TrailTop),
        b"saved" => Some(Part::Saved),
        _ => None,
    }
}

impl<'a> Token<'a> {
    // The token of a word.
    pub(crate) fn of(word: &'a [u8], line: u64) -> Result<Token<'a>, WordFault>
        ensures { elim result [
          | Ok t ↦ Reads t word.now × (word_shaped word.now ≡ true)
          | Err e ↦ (e ≡ WordFault.BadShape line) × (word_shaped word.now ≡ false)
        ] }
    {
        if word.len() > 10 {
            return Err(WordFault::BadShape { line });
        }
        match word {
            [] => Err(WordFault::BadShape { line }),
            [..=b'9', ..] => Ok(Token::Number(word)),
            [_] => Ok(Token::Letter(word)),
            _ => Ok(Token::Name(word)),
        }
    }

    // This and the three after it have one case and one reader each.
    pub(crate) fn part(self) -> Option<Part>
        ensures { result ≡ part_in self.entry }
    {
        match self {
            Token::Name(name) => part_named(name),
            _ => None,
        }
    }

    pub(crate) fn kind(self) -> Option<Kind>
        ensures { result ≡ kind_in self.entry }
    {
        match self {
            Token::Letter([letter]) => kind_of(*letter),
            _ => None,
        }
    }

    pub(crate) fn natural(self) -> Option<u64>
        ensures { result ≡ natural_in self.entry }
    {
        match self {
            Token::Number(digits) => natural(digits),
            _ => None,
        }
    }

    pub(crate) fn integer(self) -> Option<i64>
        ensures { result ≡ integer_in self.entry }
    {
        match self {
            Token::Number(digits) => integer(digits),
            _ => None,
        }
    }
}
