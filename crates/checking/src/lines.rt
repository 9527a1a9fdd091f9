// The lines on which the parts of an image begin, and the order in which choice points stand in it.
// The lines are functions and no struct: a rule needs one or two of them.
ghost use Rattle.std.specs.Prelude.{◌≡◌, suc, ◌+◌, ◌-◌, ◌^◌, ◌<◌, IfSome, length};
ghost use Rattle.tables.specs.Tables.{used};
ghost use Rattle.tables.specs.Views.{tables_of};
ghost use Rattle.heaps.specs.RuleTests.{plus_line};

use tables::Memory;

// The line of the first cell.
pub const FIRST_CELL_LINE: u64 = 2;

#[tactic(auto, using(tables::proofs::Lengths::used_fits))]
pub fn register_line(memory: &Memory) -> u64
    ensures { result ≡ 2 + used (tables_of memory.now) }
{
    FIRST_CELL_LINE + memory.used() as u64
}

#[tactic(auto, using(tables::proofs::Lengths::used_fits))]
pub fn trail_line(memory: &Memory) -> u64
    ensures { result ≡ 10 + used (tables_of memory.now) }
{
    10 + memory.used() as u64
}

#[tactic(auto, using(tables::proofs::Lengths::used_fits, tables::proofs::Lengths::trail_fits))]
pub fn heap_top_line(memory: &Memory) -> u64
    ensures { result ≡ 10 + used (tables_of memory.now) + length (tables_of memory.now).trail }
{
    trail_line(memory) + memory.trailed() as u64
}

#[tactic(auto, using(tables::proofs::Lengths::used_fits, tables::proofs::Lengths::trail_fits, tables::proofs::Lengths::depth_fits))]
pub fn trail_top_line(memory: &Memory) -> u64
    ensures { result ≡ 10 + used (tables_of memory.now) + length (tables_of memory.now).trail + length (tables_of memory.now).choices }
{
    heap_top_line(memory) + memory.depth() as u64
}

#[tactic(auto, using(tables::proofs::Lengths::used_fits, tables::proofs::Lengths::trail_fits, tables::proofs::Lengths::depth_fits))]
pub fn saved_line(memory: &Memory) -> u64
    ensures { result ≡ 10 + used (tables_of memory.now) + length (tables_of memory.now).trail + length (tables_of memory.now).choices + length (tables_of memory.now).choices }
{
    trail_top_line(memory) + memory.depth() as u64
}

// The line of a place that was found, where the first place stands on the given line.
pub fn on_line(line: u64, place: Option<usize>) -> Option<u64>
    requires { IfSome place (λ i. line + i < 2 ^ 64) }
    ensures { result ≡ plus_line line place }
{
    place.map(|i| line + i as u64)
}

// The choice point at the given place of an image, where they go from the oldest on.
pub fn point_at(memory: &Memory, place: usize) -> usize
    requires { place < length (tables_of memory.now).choices }
    ensures { result ≡ length (tables_of memory.now).choices - suc place }
{
    memory.depth() - 1 - place
}
