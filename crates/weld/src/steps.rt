ghost use Rattle.std.specs.Prelude.{◌≡◌, ◌&&◌, is_ok, if◌then◌else◌, nat_lt};
ghost use Rattle.cells.specs.Cells.{in_range};
ghost use Rattle.tables.specs.Tables.{used, push_cell, set_cell, set_register};
ghost use Rattle.tables.specs.Views.{tables_of};

use cells::{Cell, Refusal};
use tables::Memory;

// Refuses a cell that is out of range. Its range is asked of in_range: encode would refuse the same cells, but the word that
// it makes has no use here.
fn ranged(cell: Cell) -> Result<(), Refusal>
    ensures { is_ok result ≡ in_range cell }
{
    if !cell.in_range() {
        return Err(Refusal::OutOfRange);
    }
    Ok(())
}

// Takes one more cell and answers its number.
pub fn push(memory: &mut Memory, cell: Cell) -> Result<usize, Refusal>
    ensures after { tables_of memory.new ≡ (if is_ok result then push_cell (tables_of memory.old) cell else tables_of memory.old) }
    ensures test { is_ok result ≡ in_range cell && nat_lt (used (tables_of memory.old)) 4096 }
{
    ranged(cell)?;
    let used = memory.used();
    if used >= 4096 {
        return Err(Refusal::NoCells);
    }
    memory.push_cell(cell);
    Ok(used)
}

// Sets a register.
pub fn set(memory: &mut Memory, r: usize, cell: Cell) -> Result<(), Refusal>
    ensures after { tables_of memory.new ≡ (if is_ok result then set_register (tables_of memory.old) r cell else tables_of memory.old) }
    ensures test { is_ok result ≡ nat_lt r 8 && in_range cell }
{
    if r >= 8 {
        return Err(Refusal::NoRegister);
    }
    ranged(cell)?;
    memory.set_register(r, cell);
    Ok(())
}

// Writes a cell in use.
pub fn write(memory: &mut Memory, i: usize, cell: Cell) -> Result<(), Refusal>
    ensures after { tables_of memory.new ≡ (if is_ok result then set_cell (tables_of memory.old) i cell else tables_of memory.old) }
    ensures test { is_ok result ≡ in_range cell && nat_lt i (used (tables_of memory.old)) }
{
    ranged(cell)?;
    if i >= memory.used() {
        return Err(Refusal::NoCells);
    }
    memory.set_cell(i, cell);
    Ok(())
}
