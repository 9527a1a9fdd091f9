// One echo, classified by trying rules on a store.
ghost use Rattle.std.specs.Prelude.{◌≡◌};
ghost use Rattle.weld_task.specs.Slips.{half_in};
ghost use Rattle.weld_task.specs.Levels.{base, SameOldest, BroughtBack, BackToOldest};

use super::machine::Machine;
use super::making::Part;
use super::step::Tried;
use cells::{Refusal, Seen};
use classifying::{Label, Rule, Strength, Zone};

// The functor of echo(Zone, Strength, Label), and the place of its label.
const ECHO: u64 = 1;

const LABEL_AT: u64 = 3;

// The registers: the echo, the head of the rule that is tried, the words that those are made of, and an argument of each.
const SUBJECT: u64 = 0;

const HEAD: u64 = 1;

const ZONE: u64 = 2;

const STRENGTH: u64 = 3;

const LABEL: u64 = 4;

const LEFT: u64 = 5;

const RIGHT: u64 = 6;

impl Machine<'_> {
    // The label that the rules give an echo, or none where no rule explains it. A store without choice points is brought back
    // to what it was, whatever is refused on the way.
    pub(crate) fn explain(
        &mut self,
        rules: &[Rule],
        zone: Zone,
        strength: Strength,
    ) -> Result<Option<Label>, Refusal>
        ensures half { half_in self.new.store ≡ half_in self.old.store }
        ensures back { BroughtBack self.old.store self.new.store }
        ensures oldest { BackToOldest self.old.store self.new.store }
    {
        self.open()?;
        let found = self.label(rules, zone, strength);
        self.back()?;
        found
    }

    // Makes the echo with an unbound label, tries the rules on it, and reads the label.
    fn label(
        &mut self,
        rules: &[Rule],
        zone: Zone,
        strength: Strength,
    ) -> Result<Option<Label>, Refusal>
        ensures half { half_in self.new.store ≡ half_in self.old.store }
        ensures oldest { SameOldest self.old.store self.new.store }
    {
        self.atom(ZONE, zone.atom())?;
        self.atom(STRENGTH, strength.atom())?;
        let parts = [
            Part::Register(ZONE),
            Part::Register(STRENGTH),
            Part::Variable,
        ];
        self.make(ECHO, parts, SUBJECT)?;
        if !self.some_fits(rules)? {
            return Ok(None);
        }
        self.arg(LEFT, SUBJECT, LABEL_AT)?;
        match self.look(LEFT)? {
            Seen::Atom(n) => Ok(Label::named(n)),
            _ => Ok(None),
        }
    }

    // Tries one rule after another, until one fits. The first of several opens a choice point, those after it go back to it,
    // and the last one removes it.
    fn some_fits(&mut self, rules: &[Rule]) -> Result<bool, Refusal>
        ensures half { half_in self.new.store ≡ half_in self.old.store }
        ensures oldest { SameOldest self.old.store self.new.store }
    {
        match rules {
            [] => Ok(false),
            [only] => {
                self.trace.say(Tried::new(0, *only));
                self.fits(*only)
            }
            [first, between @ .., last] => {
                self.trace.say(Tried::new(0, *first));
                self.open()?;
                if self.fits(*first)? {
                    return Ok(true);
                }
                for (i, rule) in between.iter().enumerate() {
                    self.trace.say(Tried::new(i + 1, *rule));
                    self.retry()?;
                    if self.fits(*rule)? {
                        return Ok(true);
                    }
                }
                self.trace.say(Tried::new(between.len() + 1, *last));
                self.last()?;
                self.fits(*last)
            }
        }
    }

    // Whether the rule's head and the echo unify, argument by argument. The label comes first, so it is bound by the time that
    // the zone or the strength does not fit.
    fn fits(&mut self, rule: Rule) -> Result<bool, Refusal>
        ensures { base self.new.store ≡ base self.old.store }
    {
        self.make_head(rule)?;
        for i in [LABEL_AT, 1, 2] {
            self.arg(LEFT, SUBJECT, i)?;
            self.arg(RIGHT, HEAD, i)?;
            if !self.unify(LEFT, RIGHT)? {
                return Ok(false);
            }
        }
        Ok(true)
    }

    // Makes the head of a rule, echo(Zone, Strength, label), with a variable where the rule says any.
    fn make_head(&mut self, rule: Rule) -> Result<(), Refusal>
        ensures { base self.new.store ≡ base self.old.store }
    {
        let zone = self.part(ZONE, rule.zone.map(|zone| zone.atom()))?;
        let strength = self.part(STRENGTH, rule.strength.map(|strength| strength.atom()))?;
        let label = self.part(LABEL, Some(rule.label.atom()))?;
        self.make(ECHO, [zone, strength, label], HEAD)
    }

    // An argument to be: the atom, to which Xd is set, or a variable where there is none.
    fn part(&mut self, d: u64, atom: Option<u64>) -> Result<Part, Refusal>
        ensures { base self.new.store ≡ base self.old.store }
    {
        match atom {
            Some(atom) => {
                self.atom(d, atom)?;
                Ok(Part::Register(d))
            }
            None => Ok(Part::Variable),
        }
    }
}
