// Rule 8: what choice points see.
ghost use Rattle.std.specs.Prelude.{◌≡◌, ◌<◌, length, take, drop, if◌then◌else◌, nat_le};
ghost use Rattle.cells.specs.declared.cell.Cell.TheVariants.{Reference};
ghost use Rattle.tables.specs.Tables.{choice_at};
ghost use Rattle.tables.specs.Views.{tables_of};
ghost use Rattle.heaps.specs.Leads.{heap_of};
ghost use Rattle.heaps.specs.RuleTests.{leads_past, leaks, any_of, oldest};
ghost use Rattle.trails.specs.Firsts.{first_leak};
ghost use Rattle.trails.specs.Named.{Names, cells_leak};

use cells::Cell;
use marks::Marks;
use tables::Memory;

// Whether the word in cell i leads to a cell that is not below the top.
// By kind, since with the pair of `reading::leads` the end of what a word leads to may take more than 64 bits.
fn leads_past(top: usize, i: usize, word: Cell) -> bool
    ensures { result ≡ leads_past top i word }
{
    match word {
        Cell::Reference(n) | Cell::Pointer(n) => top as u64 <= n,
        Cell::Functor { name: _, arity } => arity > 0 && (top <= i || ((top - i) as u64) <= arity),
        Cell::Atom(_) | Cell::Integer(_) => false,
    }
}

// Takes the cells that the trail entries from `start` on name as the set.
fn name_from<M: Marks>(memory: &Memory, start: usize, undone: &mut M)
    ensures { Names (M.Marks.has undone.new) (drop start (tables_of memory.now).trail) }
{
    undone.clear();
    // by number, as a memory lends no slice of entries
    for j in start..memory.trailed() {
        undone.mark(memory.entry(j) as u64);
    }
}

// What a cell holds with the cells of the set made unbound.
fn seen<M: Marks>(memory: &Memory, i: usize, undone: &M) -> Cell
    ensures { result ≡ (if M.Marks.has undone.now i then Reference i else heap_of (tables_of memory.now).heap i) }
{
    if undone.marked(i as u64) {
        Cell::Reference(i as u64)
    } else {
        memory.cell(i)
    }
}

// Whether a cell below the heap top of a choice point leads past it, as that choice point sees the heap.
// Here and below a choice point is named by its place, as the memory names it.
fn cells_leak<M: Marks>(memory: &Memory, point: usize, undone: &mut M) -> bool
    requires { point < length (tables_of memory.now).choices }
    ensures { result ≡ cells_leak (tables_of memory.now).heap (tables_of memory.now).trail (choice_at (tables_of memory.now) point) }
{
    let top = memory.heap_top(point);
    name_from(memory, memory.trail_top(point), undone);
    (0..top).any(|i| leads_past(top, i, seen(memory, i, undone)))
}

// Whether a saved register of a choice point leads past its heap top.
fn saved_leak(memory: &Memory, point: usize) -> bool
    requires { point < length (tables_of memory.now).choices }
    ensures { result ≡ any_of (leads_past (choice_at (tables_of memory.now) point).heap_top 0) (choice_at (tables_of memory.now) point).saved }
{
    let top = memory.heap_top(point);
    memory
        .saved_registers(point)
        .iter()
        .any(|word| leads_past(top, 0, *word))
}

// Whether a trail entry before the trail top of a choice point names no cell below its heap top.
fn entries_leak(memory: &Memory, point: usize) -> bool
    requires { point < length (tables_of memory.now).choices }
    ensures { result ≡ any_of (nat_le (choice_at (tables_of memory.now) point).heap_top) (take (choice_at (tables_of memory.now) point).trail_top (tables_of memory.now).trail) }
{
    let top = memory.heap_top(point);
    let older = memory.trail_top(point).min(memory.trailed());
    (0..older).any(|j| top <= memory.entry(j))
}

// Whether the choice point at that place, counted from the oldest, sees past its heap top.
fn leaks<M: Marks>(memory: &Memory, place: usize, undone: &mut M) -> bool
    requires { place < length (tables_of memory.now).choices }
    ensures { result ≡ leaks (tables_of memory.now).heap (tables_of memory.now).trail (oldest (tables_of memory.now) place) }
{
    let point = memory.depth() - 1 - place;
    cells_leak(memory, point, undone) || saved_leak(memory, point) || entries_leak(memory, point)
}

// Rule 8: the oldest choice point that sees past its heap top, counted from the oldest one on.
// The cells that a choice point sees unbound are kept in the set.
pub fn first_leak<M: Marks>(memory: &Memory, undone: &mut M) -> Option<usize>
    ensures { result ≡ first_leak (tables_of memory.now) }
{
    // with `find` the proof does not close: each turn fills the set anew
    for place in 0..memory.depth() {
        if leaks(memory, place, undone) {
            return Some(place);
        }
    }
    None
}
