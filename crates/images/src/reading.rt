ghost use Rattle.std.specs.Prelude.{◌≡◌, true};
ghost use Rattle.images.specs.Reading.{tables_in, viewed};
ghost use Rattle.images.specs.ImageLaws.{LineIsText, ReadText, LoadedIsText, TextOne};

use super::draft::Draft;
use super::fault::LoadFault;
use lines::Reader;
use tables::Memory;

// The tables that an image lists, or what is wrong with its layout. The rules of tables are not checked.
pub fn read(image: &[u8]) -> Result<Memory, LoadFault>
    ensures { viewed result ≡ tables_in image.now }
{
    let mut reader = Reader::new(image);
    let mut draft = Draft::new();
    let first = reader.next_line()?.ok_or(LoadFault::BadShape { line: 1 })?;
    first.head()?;
    while let Some(line) = reader.next_line()? {
        draft.add(line)?;
    }
    if draft.whole() {
        Ok(draft.finish())
    } else {
        Err(LoadFault::BadLayout {
            line: reader.number(),
        })
    }
}

// Images are the texts of tables: bytes are loaded as tables exactly where they are the text of those.
pub fn images_are_texts() -> bool
    ensures line { LineIsText }
    ensures read { ReadText }
    ensures loaded { LoadedIsText }
    ensures one { TextOne }
    ensures answer { result ≡ true }
{
    true // The laws of images.
}
