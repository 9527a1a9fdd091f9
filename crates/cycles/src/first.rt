// The lowest cell on a cycle.
ghost use Rattle.std.specs.Prelude.{◌≡◌};
ghost use Rattle.tables.specs.Views.{tables_of};
ghost use Rattle.cycles.specs.Spans.{first_on_cycle};
ghost use Rattle.cycles.specs.Works.{NewWork};

use super::certificate::{comes_round, first_level, none_falls};
use super::slow::first_gathered;
use super::walk::Walk;
use marks::BitMarks;
use tables::Memory;

// The work tables of the search.
#[derive(Drop)]
pub struct CycleWork {
    walk: Walk,
    members: BitMarks,
}

impl CycleWork {
    pub fn new() -> CycleWork
        ensures { NewWork result }
    {
        CycleWork {
            walk: Walk::new(),
            members: BitMarks::new(),
        }
    }
}

// Rule 7: the first cell on a cycle.
// The walk is linear in the cells. What it finds is checked; if it were wrong, the slow search would find the cell.
pub fn first_on_cycle(memory: &Memory, work: &mut CycleWork) -> Option<usize>
    ensures { result ≡ first_on_cycle (tables_of memory.now) }
{
    work.walk.rank_cells(memory);
    let first = first_level(memory, &work.walk)?;
    let certain = none_falls(memory, &work.walk);
    work.walk.trace(memory, first as u16);
    if certain && comes_round(memory, &work.walk, first) {
        return Some(first);
    }
    first_gathered(memory, &mut work.members)
}
