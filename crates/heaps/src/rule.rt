ghost use Rattle.std.specs.Prelude.{◌≡◌};
ghost use Rattle.heaps.specs.RuleTests.{rule_number};

// The rules of tables, in the order in which they are tested.
#[derive(Clone, Copy, PartialEq, Eq)]
pub enum Rule {
    // references lead to cells in use that are no functors
    References = 1,
    // pointers lead to functors in use
    Pointers = 2,
    // the argument cells of functors are in use and no functors
    Arguments = 3,
    // registers and saved registers hold no functor, and lead as the cells of the heap do
    Registers = 4,
    // trail entries name different cells in use that are bound and no functors
    Trail = 5,
    // heap tops and trail tops never fall from older to newer, nor pass the number in use
    Tops = 6,
    // no cell leads back to itself
    Cycles = 7,
    // what a choice point sees leads only below its heap top
    Levels = 8,
}

impl Rule {
    // The number under which a rule is known to callers.
    pub fn number(self) -> u8
        ensures { result ≡ rule_number self }
    {
        self as u8
    }
}

// A broken rule, and the line of an image that is at fault.
#[derive(Clone, Copy, PartialEq, Eq)]
pub struct Fault {
    pub rule: Rule,
    pub line: u64,
}
