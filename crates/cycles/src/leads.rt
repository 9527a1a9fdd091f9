// Where bound cells lead.
ghost use Rattle.std.specs.Prelude.{◌≡◌, ◌≤◌, true};
ghost use Rattle.tables.specs.Tables.{used};
ghost use Rattle.tables.specs.Views.{tables_of};
ghost use Rattle.heaps.specs.Leads.{heap_of, Leads};
ghost use Rattle.cycles.specs.Spans.{Spans};

use reading::refers_to;
use std::ops::Range;
use tables::Memory;

// The cells in use that cell i leads to; none where it is unbound, as a cell that is not in use is.
pub fn leads(memory: &Memory, i: usize) -> Range<usize>
    ensures spans { Spans (heap_of (tables_of memory.now).heap) (used (tables_of memory.now)) i result.start result.end }
    ensures start { result.start ≤ 4096 }
    ensures end { result.end ≤ 4096 }
{
    let word = memory.cell(i);
    if refers_to(word, i as u64) {
        return 0..0;
    }
    let used = memory.used() as u64;
    let (first, many) = reading::leads(i as u64, word);
    let end = first.saturating_add(many);
    first.min(used) as usize..end.min(used) as usize
}

// Whether cell i leads to cell j, which is in use.
pub fn leads_to(memory: &Memory, i: usize, j: usize) -> bool
    ensures { result ≡ true → Leads (heap_of (tables_of memory.now).heap) i j }
{
    leads(memory, i).contains(&j)
}
