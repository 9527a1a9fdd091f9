ghost use Rattle.std.specs.Prelude.{◌≡◌, [], replicate};
ghost use Rattle.occurring.specs.Visits.{visited};

use super::VisitTable;

// A visit table that is in use. It is blank again once this is dropped, whichever way the walk ends.
pub(crate) struct Visits<'a> {
    pub(crate) table: &'a mut VisitTable,
}

impl Drop for Visits<'_> {
    fn drop(self)
        ensures blank { self.exit.0.now.bytes ≡ replicate 4096 0 }
        ensures empty { visited self.exit.0.now ≡ [] }
    {
        self.table.clear();
        let Visits { table: _ } = self;
    }
}
