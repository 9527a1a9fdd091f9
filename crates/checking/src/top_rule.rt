// Rule 6: heap tops and trail tops.
ghost use Rattle.std.specs.Prelude.{◌≡◌, ℕ, ◌<◌, [], ◌∷◌, length};
ghost use Rattle.tables.specs.Views.{tables_of};
ghost use Rattle.heaps.specs.declared.rule.Rule.TheVariants.{Tops};
ghost use Rattle.heaps.specs.RuleTests.{stray_top, lowest_from, oldest, trail_top_part, parts_of, lowest_line};

use super::lines::{heap_top_line, on_line, point_at, trail_top_line};
use tables::Memory;

// Of as many tops as `count` says, the first that passes the limit, or is below the one before it.
fn first_stray<F: Fn(usize) -> usize>(count: usize, limit: usize, top: F) -> Option<usize>
    ghost tops: { ℕ → ℕ }
    requires callable { (p : ℕ) → p < count → F.pre top p }
    requires gives { (p n : ℕ) → p < count → F.post top p n → n ≡ tops p }
    ensures { result ≡ lowest_from 0 count (stray_top limit tops) }
{
    (0..count).find(|p| limit < top(*p) || (*p > 0 && top(*p) < top(*p - 1)))
}

// The line of the first trail top that is too high or falls.
fn stray_trail_top(memory: &Memory) -> Option<u64>
    ensures { result ≡ lowest_line (trail_top_part (tables_of memory.now) (stray_top (length (tables_of memory.now).trail) (λ p. (oldest (tables_of memory.now) p).trail_top)) ∷ []) }
{
    let trail_top = first_stray(
        memory.depth(),
        memory.trailed(),
        |p| memory.trail_top(point_at(memory, p)),
    );
    on_line(trail_top_line(memory), trail_top)
}

// Rule 6: the line of the first heap top, or else of the first trail top, that is too high or falls.
// Both go from the oldest choice point on.
pub fn first_stray_top(memory: &Memory) -> Option<u64>
    ensures { result ≡ lowest_line (parts_of (tables_of memory.now) Tops) }
{
    let heap_top = first_stray(
        memory.depth(),
        memory.used(),
        |p| memory.heap_top(point_at(memory, p)),
    );
    on_line(heap_top_line(memory), heap_top).or_else(|| stray_trail_top(memory))
}
