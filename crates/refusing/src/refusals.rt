ghost use Rattle.std.specs.Prelude.{◌≡◌, ◌+◌, ◌≤◌, ◌||◌, ◌==◌, not, cond, length, nat_lt, Ok, Err};
ghost use Rattle.std.specs.Option.{is_some};
ghost use Rattle.std.specs.Result.{result_err};
ghost use Rattle.cells.specs.declared.refusal.Refusal.TheVariants.{HalfMade, WrongSlip, NoRegister, OutOfRange, WrongCount, NoArgument};
ghost use Rattle.cells.specs.Cells.{in_range};
ghost use Rattle.tables.specs.Tables.{used};
ghost use Rattle.tables.specs.Views.{tables_of};
ghost use Rattle.calls.specs.Refusals.{refusal, cells_needed, no_register, wrong_slip};
ghost use Rattle.calls.specs.Steps.{draft_of, lacks_argument};
ghost use Rattle.heaps.specs.LevelLaws.{Stands};
ghost use Rattle.refusing.specs.States.{state_of};
ghost use Rattle.refusing.specs.Refused.{refusal_for};

use super::arguments::argument;
use super::half::Half;
use calls::{Call, Draft};
use cells::{Cell, Refusal};
use tables::Memory;

// Whether a call is accepted, or with what it is refused.
pub fn admit(memory: &Memory, half: Option<Half>, call: Call) -> Result<(), Refusal>
    requires { Stands (tables_of memory.now) }
    ensures { result_err result ≡ refusal_for call (state_of memory.now half) }
{
    let half = half.map(|half| draft(memory, half));
    barred(memory, half, call)?;
    refuse_if(lacks_cells(memory, call), Refusal::NoCells)
}

// The checks of a call but for want of cells, in the order of the refusals' numbers. `half` is what a slip of the half-made
// structure would say.
#[tactic(auto, using(crate::proofs::Checks::first_of_three))]
fn barred(memory: &Memory, half: Option<Draft>, call: Call) -> Result<(), Refusal>
    requires { Stands (tables_of memory.now) }
    ensures { result_err result ≡ refusal half (length (tables_of memory.now).choices) (lacks_argument (tables_of memory.now)) call }
{
    let points = memory.depth() as u64;
    match call {
        Call::Var { d } => settled(half).and(register(d)),
        Call::Atom { d, n } => settled(half).and(register(d)).and(ranged(Cell::Atom(n))),
        Call::Int { d, z } => settled(half).and(register(d)).and(ranged(Cell::Integer(z))),
        Call::Move { d, s } => settled(half).and(registers(d, s)),
        Call::Look { s } => settled(half).and(register(s)),
        Call::Arg { d, s, i } => settled(half).and(registers(d, s)).and(argued(memory, s, i)),
        Call::Same { s, t } => settled(half).and(registers(s, t)),
        Call::Unify { s, t } => settled(half).and(registers(s, t)),
        Call::Open => settled(half).and(refuse_if(points >= 64, Refusal::ChoicesFull)),
        Call::Retry => settled(half).and(refuse_if(points == 0, Refusal::NoChoice)),
        Call::Last => settled(half).and(refuse_if(points == 0, Refusal::NoChoice)),
        Call::Cut { k } => settled(half).and(refuse_if(k > points, Refusal::NoChoice)),
        Call::Start { name, arity } => settled(half).and(ranged(Cell::Functor { name, arity })),
        Call::Put { slip, s } => held(half, slip).and(register(s)).and(unfinished(slip)),
        Call::Hole { slip } => held(half, slip).and(unfinished(slip)),
        Call::Done { slip, d } => held(half, slip).and(register(d)).and(finished(slip)),
        Call::Void { slip } => held(half, slip),
        Call::Collect => settled(half),
        Call::Usage => Ok(()),
    }
}

// A check refuses where it hits.
fn refuse_if(hit: bool, why: Refusal) -> Result<(), Refusal>
    ensures { result ≡ cond hit (Err why) (Ok tt) }
{
    if hit { Err(why) } else { Ok(()) }
}

fn register(r: u64) -> Result<(), Refusal>
    ensures { result ≡ cond (no_register r) (Err NoRegister) (Ok tt) }
{
    refuse_if(r > 7, Refusal::NoRegister)
}

fn registers(r: u64, s: u64) -> Result<(), Refusal>
    ensures { result ≡ cond (no_register r || no_register s) (Err NoRegister) (Ok tt) }
{
    register(r).and(register(s))
}

fn ranged(cell: Cell) -> Result<(), Refusal>
    ensures { result ≡ cond (not (in_range cell)) (Err OutOfRange) (Ok tt) }
{
    refuse_if(!cell.in_range(), Refusal::OutOfRange)
}

// Xs's structure has an argument i.
fn argued(memory: &Memory, s: u64, i: u64) -> Result<(), Refusal>
    requires { Stands (tables_of memory.now) }
    ensures { result ≡ cond (lacks_argument (tables_of memory.now) s i) (Err NoArgument) (Ok tt) }
{
    refuse_if(argument(memory, s, i).is_none(), Refusal::NoArgument)
}

// No structure is half made.
fn settled(half: Option<Draft>) -> Result<(), Refusal>
    ensures { result ≡ cond (is_some half) (Err HalfMade) (Ok tt) }
{
    refuse_if(half.is_some(), Refusal::HalfMade)
}

// The slip is that of the half-made structure.
fn held(half: Option<Draft>, slip: Draft) -> Result<(), Refusal>
    ensures { result ≡ cond (wrong_slip half slip) (Err WrongSlip) (Ok tt) }
{
    refuse_if(half != Some(slip), Refusal::WrongSlip)
}

// Some argument is missing: the contrary of `finished`, with the same refusal.
fn unfinished(slip: Draft) -> Result<(), Refusal>
    ensures { result ≡ cond (slip.missing == 0) (Err WrongCount) (Ok tt) }
{
    refuse_if(slip.missing == 0, Refusal::WrongCount)
}

// No argument is missing.
fn finished(slip: Draft) -> Result<(), Refusal>
    ensures { result ≡ cond (nat_lt 0 slip.missing) (Err WrongCount) (Ok tt) }
{
    refuse_if(slip.missing > 0, Refusal::WrongCount)
}

// What the slip of a half-made structure says.
fn draft(memory: &Memory, half: Half) -> Draft
    ensures { result ≡ draft_of (tables_of memory.now) (record { at = half.at; missing = half.missing }) }
{
    let missing = half.missing;
    match memory.cell(half.at) {
        Cell::Functor { name, arity } => Draft {
            name,
            arity,
            missing,
        },
        // does not come up in a store, where the cell is a functor
        _ => Draft {
            name: 0,
            arity: 0,
            missing,
        },
    }
}

// Whether fewer cells are free than the call takes.
fn lacks_cells(memory: &Memory, call: Call) -> bool
    requires { used (tables_of memory.now) ≤ 4096 }
    ensures { result ≡ nat_lt 4096 (used (tables_of memory.now) + cells_needed call) }
{
    let free = 4096 - memory.used() as u64;
    match call {
        Call::Var { d: _ } => free == 0,
        Call::Start { name: _, arity } => free <= arity,
        _ => false,
    }
}
