ghost use Rattle.std.specs.Prelude.{◌≡◌};
ghost use Rattle.classifying.specs.Echoes.{zone_of, strength_of, zone_atom, strength_atom};

use std::fmt;

// Beyond this offset, in tenths of a millimetre, an echo lies beside the weld.
const EDGE: u32 = 80;

// From this depth on, in percent of the wall, an echo lies at the root.
const ROOT_DEPTH: u32 = 90;

// Up to this depth an echo lies at the cap.
const CAP_DEPTH: u32 = 10;

// The least amplitudes of a medium and of a strong echo, in percent of full screen.
const MEDIUM_FROM: u32 = 20;

const STRONG_FROM: u32 = 50;

// An echo as it was measured: the offset from the weld's centre line in tenths of a millimetre, the depth in percent of the
// wall, and the amplitude in percent of full screen.
#[derive(Clone, Copy, PartialEq, Eq)]
pub struct Echo {
    pub offset: u32,
    pub depth: u32,
    pub amplitude: u32,
}

// Where an echo lies. The numbers are those of the atoms that name the zones.
#[derive(Clone, Copy, PartialEq, Eq)]
pub enum Zone {
    Root = 1,
    Body = 2,
    Cap = 3,
    Beside = 4,
}

// How strong an echo is. The numbers are those of the atoms that name the strengths.
#[derive(Clone, Copy, PartialEq, Eq)]
pub enum Strength {
    Weak = 5,
    Medium = 6,
    Strong = 7,
}

impl Echo {
    pub fn zone(self) -> Zone
        ensures { result ≡ zone_of self }
    {
        if self.offset > EDGE {
            Zone::Beside
        } else if self.depth >= ROOT_DEPTH {
            Zone::Root
        } else if self.depth <= CAP_DEPTH {
            Zone::Cap
        } else {
            Zone::Body
        }
    }

    pub fn strength(self) -> Strength
        ensures { result ≡ strength_of self }
    {
        if self.amplitude >= STRONG_FROM {
            Strength::Strong
        } else if self.amplitude >= MEDIUM_FROM {
            Strength::Medium
        } else {
            Strength::Weak
        }
    }
}

impl Zone {
    // The number of the atom that names the zone.
    pub fn atom(self) -> u64
        ensures { result ≡ zone_atom self }
    {
        self as u64 // 1 to 4
    }
}

impl Strength {
    // The number of the atom that names the strength.
    pub fn atom(self) -> u64
        ensures { result ≡ strength_atom self }
    {
        self as u64 // 5 to 7
    }
}

impl fmt::Display for Zone {
    fn fmt<W: fmt::Write>(&self, f: &mut fmt::Formatter<W>) -> fmt::Result {
        f.write_str(match self {
            Zone::Root => "root",
            Zone::Body => "body",
            Zone::Cap => "cap",
            Zone::Beside => "beside",
        })
    }
}

impl fmt::Display for Strength {
    fn fmt<W: fmt::Write>(&self, f: &mut fmt::Formatter<W>) -> fmt::Result {
        f.write_str(match self {
            Strength::Weak => "weak",
            Strength::Medium => "medium",
            Strength::Strong => "strong",
        })
    }
}
