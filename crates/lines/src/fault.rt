ghost use Rattle.std.specs.Prelude.{◌≡◌};
ghost use Rattle.lines.specs.Faults.{of_word};

// Why a word of an image cannot be read. Each fault names the line, counted from 1.
// Words and lines have faults of their own, each turned into the next by From.
#[derive(Clone, Copy, PartialEq, Eq)]
pub enum WordFault {
    // no byte, or more than ten
    BadShape { line: u64 },
    // not the name, the letter or the number that stands at its place
    BadLayout { line: u64 },
}

// Why a line of an image cannot be read.
#[derive(Clone, Copy, PartialEq, Eq)]
pub enum LineFault {
    // not four words, a word of no byte or of more than ten, no byte 10 at its end
    BadShape { line: u64 },
    // no line that can stand there; an image that ends early lacks the line after its last
    BadLayout { line: u64 },
}

impl From<WordFault> for LineFault {
    ghost from_gives = { λ w l. l ≡ of_word w };

    fn from(fault: WordFault) -> LineFault {
        match fault {
            WordFault::BadShape { line } => LineFault::BadShape { line },
            WordFault::BadLayout { line } => LineFault::BadLayout { line },
        }
    }
}
