ghost use Rattle.std.specs.Prelude.{◌≡◌};
ghost use Rattle.classifying.specs.Rules.{label_atom, label_named, NamedBack, fits, first_fit, table, verdict_of};
ghost use Rattle.classifying.specs.RuleLaws.{StrongIsFlaw, BodyIsFlaw};

use super::echo::{Strength, Zone};
use std::fmt;

// What an echo is taken for. The numbers are those of the atoms that name the labels.
#[derive(Clone, Copy, PartialEq, Eq)]
pub enum Label {
    Root = 1,
    Flaw = 8,
    Geometry = 9,
}

// A rule explains an echo as what its label says, in a zone and with a strength, or in any.
#[derive(Clone, Copy, PartialEq, Eq)]
pub struct Rule {
    pub label: Label,
    pub zone: Option<Zone>,
    pub strength: Option<Strength>,
}

// The rules of the instrument, in the order in which they are tried.
pub const RULES: [Rule; 5] = [
    Rule {
        label: Label::Flaw,
        zone: None,
        strength: Some(Strength::Strong),
    },
    Rule {
        label: Label::Root,
        zone: Some(Zone::Root),
        strength: None,
    },
    Rule {
        label: Label::Geometry,
        zone: Some(Zone::Cap),
        strength: None,
    },
    Rule {
        label: Label::Geometry,
        zone: Some(Zone::Beside),
        strength: Some(Strength::Weak),
    },
    Rule {
        label: Label::Flaw,
        zone: Some(Zone::Body),
        strength: None,
    },
];

impl Label {
    // The number of the atom that names the label. The root of the weld has one name, as a label and as a zone.
    pub fn atom(self) -> u64
        ensures { result ≡ label_atom self }
    {
        self as u64
    }

    // The label that an atom names. An error in place of None would have nothing to say, so this is no TryFrom.
    pub fn named(atom: u32) -> Option<Label>
        ensures result { result ≡ label_named atom }
        ensures back { NamedBack }
    {
        match atom {
            1 => Some(Label::Root),
            8 => Some(Label::Flaw),
            9 => Some(Label::Geometry),
            _ => None,
        }
    }
}

impl Rule {
    // Whether the rule explains an echo of this zone and strength. They are two arguments, as they are of an echo's term.
    pub fn fits(self, zone: Zone, strength: Strength) -> bool
        ensures { result ≡ fits self zone strength }
    {
        let in_zone = self.zone.is_none_or(|z| z == zone);
        let as_strong = self.strength.is_none_or(|s| s == strength);
        in_zone && as_strong
    }
}

// The label of the first rule that fits.
pub fn first_fit(rules: &[Rule], zone: Zone, strength: Strength) -> Option<Label>
    ensures { result ≡ first_fit rules.now zone strength }
{
    rules
        .iter()
        .find(|rule| rule.fits(zone, strength))
        .map(|rule| rule.label)
}

// What an echo is taken for by the rules of the instrument. One that no rule explains is a flaw.
pub fn verdict(zone: Zone, strength: Strength) -> Label
    ensures result { result ≡ verdict_of table zone strength }
    ensures strong { StrongIsFlaw }
    ensures body { BodyIsFlaw }
{
    first_fit(&RULES, zone, strength).unwrap_or(Label::Flaw)
}

impl fmt::Display for Label {
    fn fmt<W: fmt::Write>(&self, f: &mut fmt::Formatter<W>) -> fmt::Result {
        f.write_str(match self {
            Label::Root => "root",
            Label::Flaw => "flaw",
            Label::Geometry => "geometry",
        })
    }
}
