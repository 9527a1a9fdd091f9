ghost use Rattle.std.specs.Prelude.{◌≡◌};
ghost use Rattle.loading.specs.declared.described.Refused.TheVariants.{Fault};
ghost use Rattle.images.specs.Reading.{loaded};
ghost use Rattle.loading.specs.Reports.{of_load, described, numbers_of, reported};

use super::checked::load;
use images::LoadFault;
use tables::Usage;

// Why an image is refused.
#[derive(Clone, Copy, PartialEq, Eq)]
pub enum Refused {
    // it is longer than what is looked at; no line is at fault
    TooLong,
    Fault(LoadFault),
}

impl From<LoadFault> for Refused {
    ghost from_gives = { λ f r. r ≡ Fault f };

    fn from(fault: LoadFault) -> Refused {
        Refused::Fault(fault)
    }
}

// The longest image that is looked at.
const LONGEST: usize = 65_536;

// What there is to say of an image.
pub fn describe(image: &[u8]) -> Result<Usage, Refused>
    ensures said { result ≡ described image.now }
    ensures numbers { numbers_of result ≡ reported image.now }
{
    if image.len() > LONGEST {
        return Err(Refused::TooLong);
    }
    describe_whole(image)
}

// What there is to say of an image of any length.
pub fn describe_whole(image: &[u8]) -> Result<Usage, Refused>
    ensures { result ≡ of_load (loaded image.now) }
{
    Ok(load(image)?.usage())
}
