// A grid: a rectangle of cells, row by row, over memory that the caller holds.
ghost use Rattle.std.specs.Prelude.{◌≡◌, ◌+◌, ◌*◌, ◌<◌, ◌≤◌, ◌&&◌, [], ◌∷◌, length, if◌then◌else◌, MatchResult, MatchOption, nat_lt};
ghost use Rattle.std.specs.List.{slice_get};
ghost use Rattle.faults.specs.Refusals.{fault_of};
ghost use Rattle.put_rule.specs.Grids.{fits, rows_of, row_at, put_grid};
ghost use Rattle.grids.specs.CellsPut.{cells_in};
ghost use Rattle.grids.specs.PutLaws.{Lawfully};
ghost use Rattle.grids.specs.GridViews.{height, width, grid_rows, put_refusal, PutInto, RowLies, OffRows};

use crate::putting::{Cells, put_row};
use cells::kinds::TerminalCell;
use faults::Fault;
use places::{Size, Spot};
use std::ops::Range;

// A size over a slice, which is the caller's memory. If the slice has another length than rows × columns, the grid has no rows and no columns.
#[derive(Drop)]
pub struct Grid<'a, C> {
    pub cells: &'a mut [C],
    pub size: Size,
}

// Where a row lies in the memory, none off the grid.
fn row_range<C>(cells: &[C], size: Size, row: usize) -> Option<Range<usize>>
    ensures { MatchOption result (OffRows size cells.now row) (λ range. RowLies size cells.now row range) }
{
    if !size.fits(cells.len()) || row >= size.rows {
        return None;
    }
    let start = row * size.columns;
    Some(start..start + size.columns)
}

// The cell at a spot, none off the grid.
fn read_cell<C: TerminalCell>(cells: &mut [C], size: Size, at: Spot) -> Option<C>
    ensures told { result ≡ slice_get (row_at (if fits size.rows size.columns cells.old then rows_of size.rows size.columns cells.old else []) at.row) at.column }
    ensures same { cells.new ≡ cells.old }
{
    let range = row_range(cells, size, at.row)?;
    cells[range].get(at.column).copied()
}

// Puts cells into a row of the grid from a spot on, if all of them lie on the grid.
fn put_cells<C: TerminalCell>(
    cells: &mut [C],
    size: Size,
    at: Spot,
    new: Cells<C>,
) -> Result<(), Fault>
    ensures refusal { fault_of result ≡ put_refusal (if fits size.rows size.columns cells.old then size.rows else 0) (if fits size.rows size.columns cells.old then size.columns else 0) at.row at.column (length (cells_in new)) }
    ensures effect { MatchResult result (λ _. rows_of size.rows size.columns cells.new ≡ put_grid C.LayerCell.layer C.TerminalCell.glyph (rows_of size.rows size.columns cells.old) at.row at.column (cells_in new)) (λ _. cells.new ≡ cells.old) }
{
    let Some(range) = row_range(cells, size, at.row) else {
        return Err(Fault::OffGrid);
    };
    if at.column >= size.columns || new.count() > size.columns - at.column {
        return Err(Fault::OffGrid);
    }
    put_row(&mut cells[range], at.column, new);
    Ok(())
}

// A rule of the project gives this form: each method, the questions too, takes the grid for writing and hands its memory to functions,
// and no ghost field or invariant ties the memory to the size.
impl<'a, C: TerminalCell> Grid<'a, C> {
    // How many rows it has.
    pub fn rows(&mut self) -> usize
        ensures told { result ≡ height self.old }
        ensures same { self.new ≡ self.old }
    {
        self.size.over(self.cells.len()).rows
    }

    // How many columns it has.
    pub fn columns(&mut self) -> usize
        ensures told { result ≡ width self.old }
        ensures same { self.new ≡ self.old }
    {
        self.size.over(self.cells.len()).columns
    }

    // The cell at a spot, none off the grid.
    pub fn cell(&mut self, at: Spot) -> Option<C>
        ensures told { result ≡ slice_get (row_at (grid_rows self.old) at.row) at.column }
        ensures same { self.new ≡ self.old }
    {
        read_cell(self.cells, self.size, at)
    }

    // Puts a cell at a spot, by the put rule.
    pub fn put(&mut self, at: Spot, cell: C) -> Result<(), Fault>
        ensures refusal { fault_of result ≡ put_refusal (height self.old) (width self.old) at.row at.column 1 }
        ensures effect { MatchResult result (λ _. PutInto C.LayerCell.layer C.TerminalCell.glyph self.old self.new at.row at.column (cell ∷ [])) (λ _. self.new ≡ self.old) }
        ensures laws { Lawfully C.LayerCell.layer C.TerminalCell.glyph self.old self.new at.row at.column (cell ∷ []) result }
    {
        put_cells(self.cells, self.size, at, Cells(cell, None))
    }

    // Puts two cells from a spot on, by the put rule.
    pub fn put_pair(&mut self, at: Spot, left: C, right: C) -> Result<(), Fault>
        ensures refusal { fault_of result ≡ put_refusal (height self.old) (width self.old) at.row at.column 2 }
        ensures effect { MatchResult result (λ _. PutInto C.LayerCell.layer C.TerminalCell.glyph self.old self.new at.row at.column (left ∷ right ∷ [])) (λ _. self.new ≡ self.old) }
        ensures laws { Lawfully C.LayerCell.layer C.TerminalCell.glyph self.old self.new at.row at.column (left ∷ right ∷ []) result }
    {
        put_cells(self.cells, self.size, at, Cells(left, Some(right)))
    }
}
