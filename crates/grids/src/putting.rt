// The put rule on one row of cells.
ghost use Rattle.std.specs.Prelude.{◌≡◌, ◌+◌, ◌<◌, ◌≤◌, length};
ghost use borrow.Rule.Slice.PartMut.{put_mid};
ghost use Rattle.put_rule.specs.Putting.{put_row};
ghost use Rattle.grids.specs.CellsPut.{cells_in, blanked_beside};

use cells::kinds::TerminalCell;

// A cell that is put, and the one that is put beside it with it, if any. No slice: to lend an array made here, of cells of any kind,
// each caller would have to bound the size of a cell.
#[derive(Clone, Copy)]
pub(crate) struct Cells<C>(pub(crate) C, pub(crate) Option<C>);

impl<C: Copy> Cells<C> {
    // How many they are.
    pub(crate) fn count(self) -> usize
        ensures { result ≡ length (cells_in self) }
    {
        if self.1.is_some() { 2 } else { 1 }
    }
}

// Blanks the halves beside the columns from one to another that lose their other half when these are overwritten.
fn blank_beside<C: TerminalCell>(row: &mut [C], from: usize, end: usize)
    requires some { from < end }
    requires inside { end ≤ length row.old }
    ensures { row.new ≡ blanked_beside C.LayerCell.layer C.TerminalCell.glyph row.old from end }
{
    let breaks_left = from > 0 && row[from].is_right();
    let breaks_right = end < row.len() && row[end - 1].is_left();
    if breaks_left {
        row[from - 1] = C::blank();
    }
    if breaks_right {
        row[end] = C::blank();
    }
}

// Writes the cells over those from a column on.
fn write_cells<C: TerminalCell>(row: &mut [C], from: usize, new: Cells<C>)
    requires { from + length (cells_in new) ≤ length row.old }
    ensures { row.new ≡ put_mid from (length (cells_in new)) row.old (cells_in new) }
{
    let Cells(first, second) = new;
    row[from] = first;
    if let Some(second) = second {
        row[from + 1] = second;
    }
}

// Puts cells into a row from a column on.
pub(crate) fn put_row<C: TerminalCell>(row: &mut [C], from: usize, new: Cells<C>)
    requires { from + length (cells_in new) ≤ length row.old }
    ensures { row.new ≡ put_row C.LayerCell.layer C.TerminalCell.glyph row.old from (cells_in new) }
{
    blank_beside(row, from, from + new.count());
    write_cells(row, from, new);
}
