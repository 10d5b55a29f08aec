// Shows a row of cells on any terminal.
#![tactic(auto)]

ghost use Rattle.terminal.specs.Performing.{Effects};
ghost use Rattle.showing.specs.RowOperations.{cell_operations, row_operations};

use cells::kinds::TerminalCell;
use faults::Fault;
use places::Spot;
use terminal::terminals::Terminal;

// Puts each cell from the cursor on, halves that belong together as a pair. Stops at the first refusal.
fn put_cells<T: Terminal>(terminal: &mut T, cells: &[T::Cell]) -> Result<(), Fault>
    ensures { Effects T.Cell.LayerCell.layer T.Cell.TerminalCell.glyph (T.Terminal.meaning terminal.old) (T.Terminal.meaning terminal.new) (cell_operations T.Cell.TerminalCell.glyph cells.now) result }
{
    let mut rest = cells;
    while let [cell, after @ ..] = rest {
        match after {
            [right, beyond @ ..] if cell.belongs_with(*right) => {
                terminal.put_pair(*cell, *right)?;
                rest = beyond;
            }
            _ => {
                terminal.put(*cell)?;
                rest = after;
            }
        }
    }
    Ok(())
}

// Moves to a row's start, then puts each cell there. Stops at the first refusal.
pub fn show_row<T: Terminal>(terminal: &mut T, row: usize, cells: &[T::Cell]) -> Result<(), Fault>
    ensures { Effects T.Cell.LayerCell.layer T.Cell.TerminalCell.glyph (T.Terminal.meaning terminal.old) (T.Terminal.meaning terminal.new) (row_operations T.Cell.TerminalCell.glyph row cells.now) result }
{
    terminal.move_to(Spot { row, column: 0 })?;
    put_cells(terminal, cells)
}
