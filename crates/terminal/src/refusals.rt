// Why a cell or a pair is refused, whatever the room is, in the order of the tests.
ghost use Rattle.std.specs.Prelude.{◌≡◌, suc, not, ◌&&◌, [], ◌∷◌, is_some, IfOk, nat_le};
ghost use Rattle.faults.specs.Refusals.{first, fault_of};
ghost use Rattle.faults.specs.declared.Fault.TheVariants.{OffGrid, NotDrawable, CursorUnknown};
ghost use Rattle.terminal.specs.Operations.{column_of};
ghost use Rattle.terminal.specs.Acceptance.{IsPutAt, IsPairPutAt};

use cells::kinds::TerminalCell;
use faults::Fault;
use places::Spot;

// Is a cell refused, wherever it is put as a single?
pub fn check_single<C: TerminalCell>(cell: C) -> Result<(), Fault>
    ensures { fault_of result ≡ first ((not (C.TerminalCell.glyph.drawable cell && C.TerminalCell.glyph.single cell), NotDrawable) ∷ []) }
{
    if !(cell.is_drawable() && cell.is_single()) {
        return Err(Fault::NotDrawable);
    }
    Ok(())
}

// Is a pair refused, wherever it is put?
pub fn check_pair<C: TerminalCell>(left: C, right: C) -> Result<(), Fault>
    ensures { fault_of result ≡ first ((not (C.TerminalCell.glyph.belong left right), NotDrawable) ∷ []) }
{
    if !left.belongs_with(right) {
        return Err(Fault::NotDrawable); // no pair
    }
    Ok(())
}

// Where a cell is put as a single: where the cursor is.
pub fn spot_of_single<C: TerminalCell>(cell: C, cursor: Option<Spot>) -> Result<Spot, Fault>
    ensures refusal { fault_of result ≡ first ((not (C.TerminalCell.glyph.drawable cell && C.TerminalCell.glyph.single cell), NotDrawable) ∷ (not (is_some cursor), CursorUnknown) ∷ []) }
    ensures told { IfOk result (λ spot. IsPutAt C.TerminalCell.glyph cell cursor spot) }
{
    check_single(cell)?;
    cursor.ok_or(Fault::CursorUnknown)
}

// Where a pair is put on so many columns: from where the cursor is on.
pub fn spot_of_pair<C: TerminalCell>(
    left: C,
    right: C,
    columns: usize,
    cursor: Option<Spot>,
) -> Result<Spot, Fault>
    ensures refusal { fault_of result ≡ first ((not (C.TerminalCell.glyph.belong left right), NotDrawable) ∷ (not (is_some cursor), CursorUnknown) ∷ (nat_le columns (suc (column_of cursor)), OffGrid) ∷ []) }
    ensures told { IfOk result (λ spot. IsPairPutAt C.TerminalCell.glyph left right columns cursor spot) }
{
    check_pair(left, right)?;
    let spot = cursor.ok_or(Fault::CursorUnknown)?;
    if columns.saturating_sub(1) <= spot.column {
        return Err(Fault::OffGrid);
    }
    Ok(spot)
}
