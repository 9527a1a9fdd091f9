ghost use Rattle.std.specs.Prelude.{◌≡◌, true, false, List, [], ◌∷◌, length, Some, Ok, Err, ◌==◌, MatchOption};
ghost use Rattle.std.specs.List.{position_or_len, before_first, after_first};
ghost use Rattle.lines.specs.Words.{or_bad, part_in, kind_in, natural_in, integer_in};
ghost use Rattle.lines.specs.Lines.{split, words_of, shaped, cell_by, ranged, number_by, item_by, item_in, line_read};
ghost use Rattle.lines.specs.Heads.{head_read};
ghost use Rattle.lines.specs.ShortWords.{ShortWords};
ghost use Rattle.lines.specs.Cuts.{Spread};

use super::fault::{LineFault, WordFault};
use super::item::Item;
use super::word::{Kind, Part, Token};
use cells::Cell;

// A line of an image without its byte 10, and its number, counted from 1.
#[derive(Clone, Copy)]
pub struct Line<'a> {
    pub text: &'a [u8],
    pub number: u64,
}

// The four words of a line.
#[derive(Clone, Copy)]
pub(crate) struct Words<'a> {
    part: Token<'a>,
    index: Token<'a>,
    kind: Token<'a>,
    value: Token<'a>,
}

// What stands before the first byte `end`, and what stands after it: none where no byte is `end`.
pub fn cut(bytes: &[u8], end: u8) -> Option<(&[u8], &[u8])>
    ensures parts { MatchOption result (position_or_len (λ b. b == end) bytes.now ≡ length bytes.now) (λ p. (p.0.now ≡ before_first (λ b. b == end) bytes.now) × (p.1.now ≡ after_first (λ b. b == end) bytes.now)) }
    ensures pieces { MatchOption result (split end bytes.now ≡ bytes.now ∷ []) (λ p. split end bytes.now ≡ p.0.now ∷ split end p.1.now) }
{
    let n = bytes.iter().position(|b| *b == end)?;
    Some((&bytes[..n], &bytes[n + 1..]))
}

// The four pieces between the spaces of a line.
fn four(text: &[u8]) -> Option<(&[u8], &[u8], &[u8], &[u8])>
    ensures { MatchOption result ((length (words_of text.now) == 4) ≡ false) (λ p. words_of text.now ≡ p.0.now ∷ p.1.now ∷ p.2.now ∷ p.3.now ∷ []) }
{
    let (part, rest) = cut(text, b' ')?;
    let (index, rest) = cut(rest, b' ')?;
    let (kind, value) = cut(rest, b' ')?;
    match cut(value, b' ') {
        None => Some((part, index, kind, value)),
        Some(_) => None,
    }
}

// The four words of a line, each of one to ten bytes.
fn cut_words(line: Line<'_>) -> Result<Words<'_>, LineFault>
    ensures { elim result [
      | Ok w ↦ Spread w (words_of line.entry.text.now)
      | Err e ↦ (e ≡ LineFault.BadShape line.entry.number) × (shaped (words_of line.entry.text.now) ≡ false)
    ] }
{
    let number = line.number;
    let (part, index, kind, value) = four(line.text).ok_or(LineFault::BadShape { line: number })?;
    Ok(Words {
        part: Token::of(part, number)?,
        index: Token::of(index, number)?,
        kind: Token::of(kind, number)?,
        value: Token::of(value, number)?,
    })
}

// The cell of a kind, from the word of its value.
fn cell(kind: Kind, value: Token) -> Option<Cell>
    ensures { result ≡ ranged (cell_by kind (natural_in value.entry) (integer_in value.entry)) }
{
    let cell = match kind {
        Kind::Reference => Cell::Reference(value.natural()?),
        Kind::Pointer => Cell::Pointer(value.natural()?),
        Kind::Functor => {
            let v = value.natural()?;
            Cell::Functor {
                name: v / 64,
                arity: v % 64,
            }
        }
        Kind::Atom => Cell::Atom(value.natural()?),
        Kind::Integer => Cell::Integer(value.integer()?),
        Kind::Number => return None,
    };
    cell.in_range().then_some(cell)
}

// A number up to 4,096, from its letter and the word of its value.
fn number(kind: Kind, value: Token) -> Option<u64>
    ensures { result ≡ number_by kind (natural_in value.entry) }
{
    match kind {
        Kind::Number => value.natural().filter(|n| *n <= 4096),
        _ => None,
    }
}

// The cell of a part that holds cells, or the number of one that holds numbers.
fn place(part: Part, index: u64, kind: Kind, value: Token) -> Option<Item>
    ensures { result ≡ item_by part (Some index) (Some kind) (natural_in value.entry) (integer_in value.entry) }
{
    Some(match part {
        Part::Heap => Item::Heap(index, cell(kind, value)?),
        Part::Register => Item::Register(index, cell(kind, value)?),
        Part::Trail => Item::Trail(index, number(kind, value)?),
        Part::HeapTop => Item::HeapTop(index, number(kind, value)?),
        Part::TrailTop => Item::TrailTop(index, number(kind, value)?),
        Part::Saved => Item::Saved(index, cell(kind, value)?),
    })
}

impl<'a> Words<'a> {
    // What the words say together.
    fn said(self) -> Option<Item>
        ensures { result ≡ item_in (part_in self.entry.part) (natural_in self.entry.index) (kind_in self.entry.kind) (natural_in self.entry.value) (integer_in self.entry.value) }
    {
        let part = self.part.part()?;
        let index = self.index.natural()?;
        let kind = self.kind.kind()?;
        place(part, index, kind, self.value)
    }

    // The same; words that say nothing are a fault of their line's layout.
    fn item(self, line: u64) -> Result<Item, WordFault>
        ensures { result ≡ or_bad line (item_in (part_in self.entry.part) (natural_in self.entry.index) (kind_in self.entry.kind) (natural_in self.entry.value) (integer_in self.entry.value)) }
    {
        self.said().ok_or(WordFault::BadLayout { line })
    }
}

impl<'a> Line<'a> {
    // The place that the line fills, and what stands there. The limits of 64 bits refuse no number of a word of ten bytes.
    #[tactic(auto, using(crate::proofs::ShortNumbers::short_words))]
    pub fn item(self) -> Result<Item, LineFault>
        ensures result { result ≡ line_read self.entry.number self.entry.text.now }
        ensures short { ShortWords }
    {
        let words = cut_words(self)?;
        let item = words.item(self.number)?;
        Ok(item)
    }

    // The first line names the columns.
    pub fn head(self) -> Result<(), LineFault>
        ensures { result ≡ head_read self.entry.number self.entry.text.now }
    {
        let _words = cut_words(self)?;
        if self.text == b"part index kind value".as_slice() {
            Ok(())
        } else {
            Err(LineFault::BadLayout { line: self.number })
        }
    }
}
