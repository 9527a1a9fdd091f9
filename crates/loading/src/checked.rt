ghost use Rattle.std.specs.Prelude.{◌≡◌};
ghost use Rattle.images.specs.Reading.{loaded, viewed};
ghost use Rattle.images.specs.ImageLaws.{LoadedIsText, TextOne};

use checking::{Work, check};
use images::{LoadFault, read};
use tables::Memory;

// The tables of an image that keeps the layout and the table rules, or what is wrong with it.
// An image is accepted exactly where it is the text of some tables that keep the rules, and then those are its tables.
pub fn load(image: &[u8]) -> Result<Memory, LoadFault>
    ensures result { viewed result ≡ loaded image.now }
    ensures text { LoadedIsText }
    ensures one { TextOne }
{
    let memory = read(image)?;
    check(&memory, &mut Work::new())?;
    Ok(memory)
}
