ghost use Rattle.std.specs.Prelude.{◌≡◌, false, [], ◌∷◌, Ok, Err};
ghost use Rattle.lines.specs.Lines.{none, split};
ghost use Rattle.lines.specs.Readers.{rest, Hands};

use super::super::fault::LineFault;
use super::super::line::{Line, cut};
use super::Reader;

impl<'a> Reader<'a> {
    // Before the first line.
    pub fn new(image: &'a [u8]) -> Reader<'a>
        ensures { (rest result ≡ image.now) × (result.next ≡ 1) }
    {
        Reader {
            rest: image,
            next: 1,
        }
    }

    // The number of the next line.
    pub fn number(&self) -> u64
        ensures { result ≡ self.now.next }
    {
        self.next // counted from 1
    }

    // The next line, or none at the end; a line must end with byte 10.
    pub fn next_line(&mut self) -> Result<Option<Line<'a>>, LineFault>
        ensures { elim result [
          | Ok o ↦ Hands self.old self.new o
          | Err e ↦ (e ≡ LineFault.BadShape self.old.next) × (none (rest self.old) ≡ false)
              × (split 10 (rest self.old) ≡ rest self.old ∷ [])
        ] }
    {
        if self.rest.is_empty() {
            return Ok(None);
        }
        let number = self.next;
        let (text, rest) = cut(self.rest, b'\n').ok_or(LineFault::BadShape { line: number })?;
        self.rest = rest;
        self.next = number + 1;
        Ok(Some(Line { text, number }))
    }
}
