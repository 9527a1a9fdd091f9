ghost use Rattle.std.specs.Prelude.{◌≡◌, Some};
ghost use Rattle.loading.specs.Reports.{numbers_of, numbers_text};

use super::described::Refused;
use std::fmt;
use tables::Usage;

// What there is to say of an image, as the six numbers under which callers know it: the refusal, the broken rule and the
// line at fault, 0 for none; then the cells, trail entries and choice points in use, zeros where the image is refused.
#[derive(Clone, Copy, PartialEq, Eq)]
pub struct Numbers(pub [u64; 6]);

impl From<Result<Usage, Refused>> for Numbers {
    ghost from_gives = { λ r n. n.0 ≡ numbers_of r };

    fn from(described: Result<Usage, Refused>) -> Numbers {
        match described {
            Ok(usage) => Numbers([0, 0, 0, usage.used, usage.entries, usage.points]),
            // a length is no fault that an image can have, so no LoadFault gives this number
            Err(Refused::TooLong) => Numbers([10, 0, 0, 0, 0, 0]),
            Err(Refused::Fault(fault)) => {
                let refusal = fault.refusal().number() as u64;
                let rule = fault.rule().map_or(0, |rule| rule.number() as u64);
                Numbers([refusal, rule, fault.line(), 0, 0, 0])
            }
        }
    }
}

impl fmt::Display for Numbers {
    ghost output = { λ n. Some (numbers_text n.0) };

    fn fmt<W: fmt::Write>(&self, f: &mut fmt::Formatter<W>) -> fmt::Result {
        let [refusal, rule, line, cells, entries, points] = self.0;
        write!(f, "{refusal} {rule} {line} {cells} {entries} {points}")
    }
}
