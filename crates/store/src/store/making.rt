// A store is made by set-up, or from an image.
ghost use Rattle.std.specs.Prelude.{◌≡◌, None};
ghost use Rattle.tables.specs.Tables.{set_up};
ghost use Rattle.tables.specs.Views.{tables_of};
ghost use Rattle.heaps.specs.LevelLaws.{Stands};
ghost use Rattle.images.specs.Reading.{loaded};
ghost use Rattle.images.specs.ImageLaws.{LoadedIsText, TextOne};
ghost use Rattle.store.specs.Called.{state};
ghost use Rattle.store.specs.Loaded.{opened, held};

use super::Store;
use images::LoadFault;
use loading::load;
use tables::Memory;
use unifying::Work;

impl Store {
    // No cells in use, and atom 0 in each register.
    pub fn new() -> Store
        ensures { state result ≡ record { tables = set_up; half = None } }
    {
        Store::over(Memory::new())
    }

    // The tables of an image that keeps the layout and the table rules, or what is wrong with it.
    // An image is accepted exactly where it is the text of some tables that keep the rules, and then those are the tables.
    pub fn load(image: &[u8]) -> Result<Store, LoadFault>
        ensures result { held result ≡ opened (loaded image.now) }
        ensures text { LoadedIsText }
        ensures one { TextOne }
    {
        Ok(Store::over(load(image)?))
    }

    // A store with these tables, and no structure half made.
    fn over(memory: Memory) -> Store
        requires { Stands (tables_of memory) }
        ensures { state result ≡ record { tables = tables_of memory; half = None } }
    {
        Store {
            memory,
            half: None,
            work: Work::new(),
        }
    }
}
