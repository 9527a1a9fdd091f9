ghost use Rattle.std.specs.Prelude.{◌≡◌, ◌+◌, ◌≤◌, ◌==◌, true, false, ◌++◌, replicate, Some, None, IfOk, IfErr};
ghost use Rattle.refusing.specs.Refused.{refusal_for};
ghost use Rattle.cells.specs.declared.cell.Cell.TheVariants.{Atom};
ghost use Rattle.tables.specs.Tables.{used, with_heap};
ghost use Rattle.tables.specs.Views.{tables_of};
ghost use Rattle.calls.specs.Refusals.{wrong_slip};
ghost use Rattle.cells.specs.Cells.{in_range};
ghost use Rattle.calls.specs.Steps.{draft, on_half, write};
ghost use Rattle.calls.specs.Whole.{Whole};
ghost use Rattle.calls.specs.declared.Call.TheVariants.{Start, Put, Hole, Done, Void};
ghost use Rattle.store.specs.Called.{state, called, told, told_back, nothing, hands, Unchanged, IfRefused, HandsBack};

use super::{Slip, Store};
use calls::{Call, Draft};
use cells::{Cell, Refusal};
use refusing::Half;
use tables::Memory;

impl Slip {
    // What the slip says of its structure.
    pub fn draft(&self) -> Draft
        ensures { result ≡ self.now.draft }
    {
        self.draft
    }
}

impl Store {
    // Takes the cells of a structure, with atom 0 for each argument.
    pub fn start(&mut self, name: u64, arity: u64) -> Result<Slip, Refusal>
        ensures result { (told hands result, state self.new) ≡ called (Start name arity) self.old }
        ensures kept { IfRefused result (Unchanged self.old self.new) }
    {
        self.admit(Call::Start { name, arity })?;
        let at = self.memory.used();
        self.memory.push_cell(Cell::Functor { name, arity });
        push_blanks(&mut self.memory, arity);
        self.half = Some(Half { at, missing: arity });
        let draft = Draft {
            name,
            arity,
            missing: arity,
        };
        Ok(Slip { draft })
    }

    // Writes the word in Xs as the next argument, and hands the slip on.
    pub fn put(&mut self, slip: Slip, s: u64) -> Result<Slip, (Refusal, Slip)>
        ensures result { (told_back hands result, state self.new) ≡ called (Put slip.draft s) self.old }
        ensures kept { IfRefused result (Unchanged self.old self.new) }
        ensures back { HandsBack result slip }
    {
        let call = Call::Put {
            slip: slip.draft,
            s,
        };
        let slip = self.admitted(call, slip)?;
        let word = self.memory.register(s as usize);
        Ok(self.write(slip, word))
    }

    // Writes an unbound variable as the next argument, and hands the slip on.
    pub fn hole(&mut self, slip: Slip) -> Result<Slip, (Refusal, Slip)>
        ensures result { (told_back hands result, state self.new) ≡ called (Hole slip.draft) self.old }
        ensures kept { IfRefused result (Unchanged self.old self.new) }
        ensures back { HandsBack result slip }
    {
        let draft = slip.draft;
        let slip = self.admitted(Call::Hole { slip: draft }, slip)?;
        let next = self.half_of(draft).next(draft);
        Ok(self.write(slip, Cell::Reference(next as u64)))
    }

    // Writes a word as the next argument. The slip then says one fewer missing.
    fn write(&mut self, slip: Slip, word: Cell) -> Slip
        requires right { wrong_slip (draft (state self.old)) slip.draft ≡ false }
        requires more { (slip.draft.missing == 0) ≡ false }
        requires range { in_range word ≡ true }
        requires whole { Whole (on_half (state self.old) (write (state self.old) word)).1 }
        ensures { (hands result, state self.new) ≡ on_half (state self.old) (write (state self.old) word) }
    {
        let Slip { draft } = slip;
        let half = self.half_of(draft);
        self.memory.set_cell(half.next(draft), word);
        self.half = Some(half.fewer());
        Slip {
            draft: Draft {
                missing: draft.missing - 1,
                ..draft
            },
        }
    }

    // Points Xd at the structure, which is finished.
    pub fn done(&mut self, slip: Slip, d: u64) -> Result<(), (Refusal, Slip)>
        ensures result { (told_back nothing result, state self.new) ≡ called (Done slip.draft d) self.old }
        ensures kept { IfRefused result (Unchanged self.old self.new) }
        ensures back { HandsBack result slip }
    {
        let call = Call::Done {
            slip: slip.draft,
            d,
        };
        let Slip { draft } = self.admitted(call, slip)?;
        let half = self.half_of(draft);
        self.memory
            .set_register(d as usize, Cell::Pointer(half.at as u64));
        self.half = None;
        Ok(())
    }

    // Gives back the cells of the structure. What done does too is `admitted`, `half_of` and `half = None`: the statement in
    // which they differ stands between the last two.
    pub fn void(&mut self, slip: Slip) -> Result<(), (Refusal, Slip)>
        ensures result { (told_back nothing result, state self.new) ≡ called (Void slip.draft) self.old }
        ensures kept { IfRefused result (Unchanged self.old self.new) }
        ensures back { HandsBack result slip }
    {
        let Slip { draft } = self.admitted(Call::Void { slip: slip.draft }, slip)?;
        let half = self.half_of(draft);
        self.memory.cut_heap(half.at);
        self.half = None;
        Ok(())
    }

    // The slip of a call that is accepted. It goes back with a refusal; a closure for map_err would take it in both cases.
    fn admitted(&self, call: Call, slip: Slip) -> Result<Slip, (Refusal, Slip)>
        ensures taken { IfOk result (λ x. (x ≡ slip) × (None ≡ refusal_for call (state self.now))) }
        ensures back { IfErr result (λ e. (e.1 ≡ slip) × (Some e.0 ≡ refusal_for call (state self.now))) }
    {
        match self.admit(call) {
            Ok(()) => Ok(slip),
            Err(why) => Err((why, slip)),
        }
    }

    // The half-made structure that the slip belongs to.
    fn half_of(&self, slip: Draft) -> Half
        requires { wrong_slip (draft (state self.now)) slip ≡ false }
        ensures { (state self.now).half ≡ Some (record { at = result.at; missing = result.missing }) }
    {
        let Some(half) = self.half else {
            unreachable();
        };
        half
    }
}

// Takes n cells with atom 0.
fn push_blanks(memory: &mut Memory, n: u64)
    requires { used (tables_of memory.old) + n ≤ 4096 }
    ensures { tables_of memory.new ≡ with_heap (tables_of memory.old) ((tables_of memory.old).heap ++ replicate n (Atom 0)) }
{
    for _i in 0..n {
        memory.push_cell(Cell::Atom(0));
    }
}
