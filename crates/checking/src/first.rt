// The first fault.
ghost use Rattle.std.specs.Prelude.{◌≡◌};
ghost use Rattle.std.specs.Result.{result_err};
ghost use Rattle.tables.specs.Views.{tables_of};
ghost use Rattle.heaps.specs.RuleTests.{fault, fault_at};

use super::cell_rules::{first_lacking_functor, first_stray_pointer, first_stray_reference};
use super::register_rule::first_stray_register;
use super::searches::{cycle_line, entry_line, level_line};
use super::top_rule::first_stray_top;
use super::work::Work;
use heaps::{Fault, Rule};
use tables::Memory;

// Fails with the rule where it is given a line at fault.
fn none_at_fault(rule: Rule, line: Option<u64>) -> Result<(), Fault>
    ensures { result_err result ≡ fault_at rule line }
{
    match line {
        None => Ok(()),
        Some(line) => Err(Fault { rule, line }),
    }
}

// The error is the lowest broken rule with its lowest line at fault; there is none where all rules hold.
#[tactic(auto, unfolding(heaps::specs::RuleTests::fault))]
pub fn check(memory: &Memory, work: &mut Work) -> Result<(), Fault>
    ensures { result_err result ≡ fault (tables_of memory.now) }
{
    none_at_fault(Rule::References, first_stray_reference(memory))?;
    none_at_fault(Rule::Pointers, first_stray_pointer(memory))?;
    none_at_fault(Rule::Arguments, first_lacking_functor(memory))?;
    none_at_fault(Rule::Registers, first_stray_register(memory))?;
    none_at_fault(Rule::Trail, entry_line(memory, &mut work.named))?;
    none_at_fault(Rule::Tops, first_stray_top(memory))?;
    none_at_fault(Rule::Cycles, cycle_line(memory, &mut work.cycles))?;
    none_at_fault(Rule::Levels, level_line(memory, &mut work.undone))
}
