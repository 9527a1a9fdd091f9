// Rule 4: registers and saved registers.
ghost use Rattle.std.specs.Prelude.{◌≡◌, [], ◌∷◌};
ghost use Rattle.tables.specs.Tables.{used};
ghost use Rattle.tables.specs.Views.{tables_of};
ghost use Rattle.heaps.specs.declared.rule.Rule.TheVariants.{Registers};
ghost use Rattle.heaps.specs.Leads.{heap_of};
ghost use Rattle.heaps.specs.RuleTests.{stray_word, saved_at, saved_part, parts_of, lowest_line};

use super::lines::{on_line, point_at, register_line, saved_line};
use tables::Memory;
use words::stray_word;

// The line of the first saved register with a wrong word. They go from the oldest choice point on: one number for point and
// register, as the lines go.
fn stray_saved(memory: &Memory) -> Option<u64>
    ensures { result ≡ lowest_line (saved_part (tables_of memory.now) (λ p. stray_word (heap_of (tables_of memory.now).heap) (used (tables_of memory.now)) (saved_at (tables_of memory.now) p)) ∷ []) }
{
    let saved = (0..8 * memory.depth()).find(|p| {
        stray_word(memory, memory.saved(point_at(memory, p / 8), p % 8))
    });
    on_line(saved_line(memory), saved)
}

// Rule 4: the line of the first register or saved register with a wrong word.
pub fn first_stray_register(memory: &Memory) -> Option<u64>
    ensures { result ≡ lowest_line (parts_of (tables_of memory.now) Registers) }
{
    let register = memory
        .registers()
        .iter()
        .position(|word| stray_word(memory, *word));
    on_line(register_line(memory), register).or_else(|| stray_saved(memory))
}
