ghost use Rattle.std.specs.Prelude.{◌≡◌};
ghost use Rattle.cells.specs.Refusals.{number_of};

// Why a call is refused. The numbers stand in the order in which a call looks for them.
#[derive(Clone, Copy, PartialEq, Eq, Debug)]
pub enum Refusal {
    // a structure is half made, and the call is none of put, hole, done, void and usage
    HalfMade = 1,
    // the slip differs from the half-made structure, or there is none
    WrongSlip = 2,
    // a register above 7
    NoRegister = 3,
    // an atom, a name, an integer or an arity out of range
    OutOfRange = 4,
    // put or hole with no argument missing, done with some missing
    WrongCount = 5,
    // arg of what is no structure, or of an argument that it does not have
    NoArgument = 6,
    // open with 64 choice points
    ChoicesFull = 7,
    // retry or last without a choice point, cut above their number
    NoChoice = 8,
    // not enough free cells
    NoCells = 9,
    // an image line that is not four words, a word that is empty or too long, no final byte 10
    BadShape = 10,
    // any other breach of the image layout
    BadLayout = 11,
    // an image whose tables break a rule
    BrokenRule = 12,
}

impl Refusal {
    // The number under which a refusal is known to callers. A method, since its name says what the number is.
    pub fn number(self) -> u8
        ensures { result ≡ number_of self }
    {
        self as u8
    }
}
