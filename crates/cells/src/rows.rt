// Rows of whole characters: mending turns every half that stands alone, and all that cannot be drawn, into the blank.
ghost use Rattle.std.specs.Prelude.{◌≡◌};
ghost use Rattle.cells.specs.Rows.{paired, stays, mended_cell, mended, ByColumn, Whole};

use crate::kinds::TerminalCell;

// Do two neighbouring spots hold a left half and the right half that belongs to it?
fn are_paired<C: TerminalCell>(left: Option<C>, right: Option<C>) -> bool
    ensures { result ≡ paired C.TerminalCell.glyph left right }
{
    match (left, right) {
        (Some(left), Some(right)) => left.belongs_with(right),
        _ => false,
    }
}

// Does mending keep a cell between its neighbours?
fn does_stay<C: TerminalCell>(before: Option<C>, cell: C, after: Option<C>) -> bool
    ensures { result ≡ stays C.TerminalCell.glyph before cell after }
{
    (cell.is_drawable() && cell.is_single())
        || are_paired(Some(cell), after)
        || are_paired(before, Some(cell))
}

// The mended cell between its raw neighbours, none at an end of the row.
fn mended_cell<C: TerminalCell>(before: Option<C>, cell: C, after: Option<C>) -> C
    ensures { result ≡ mended_cell C.LayerCell.layer C.TerminalCell.glyph before cell after }
{
    if does_stay(before, cell, after) {
        cell
    } else {
        C::blank()
    }
}

// Mends a row in place.
pub fn mend<C: TerminalCell>(row: &mut [C])
    ensures mended { row.new ≡ mended C.LayerCell.layer C.TerminalCell.glyph row.old }
    ensures by_column { ByColumn C.LayerCell.layer C.TerminalCell.glyph row.old row.new }
    ensures whole { Whole C.LayerCell.layer C.TerminalCell.glyph row.new }
{
    let mut before = None;
    // by columns, since a cell is written while the next one is read
    for column in 0..row.len() {
        let cell = row[column];
        let after = row.get(column + 1).copied();
        row[column] = mended_cell(before, cell, after);
        before = Some(cell);
    }
}
