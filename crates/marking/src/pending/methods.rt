ghost use Rattle.std.specs.Prelude.{◌≡◌, []};
ghost use Rattle.marking.specs.Walks.{waiting};

use super::Pending;
use tables::Stack;

impl Pending {
    // No cell waits.
    pub fn new() -> Pending
        ensures { waiting result ≡ [] }
    {
        Pending {
            cells: Stack::new(0),
        }
    }
}
