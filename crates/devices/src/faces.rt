// The face of a device: its cells, what it shows of them, and the bytes in which it is told an operation.
ghost use Rattle.std.specs.Prelude.{◌≡◌, ℕ, List};
ghost use Rattle.lines.specs.declared.Line.{Line};
ghost use Rattle.places.specs.declared.Size.{Size};
ghost use Rattle.terminal.specs.declared.sizes.Limits.{Limits};
ghost use Rattle.terminal.specs.Meanings.{Sound};
ghost use Rattle.terminal.specs.Operations.{Operation, Move, Put, PutPair};
ghost use Rattle.terminal.specs.Acceptance.{MayMove, MayPut, MayPutPair};
ghost use Rattle.lines.specs.Sending.{room_of};
ghost use Rattle.devices.specs.Shown.{Shown, over, Performs};

use cells::kinds::TerminalCell;
use lines::Line;
use places::{Size, Spot};
use terminal::sizes::Limits;

// What a device shows, over cells of the caller's, and how it performs the operations that are not refused.
pub trait Face<'a> {
    // the kind of cell that it shows
    type Cell: TerminalCell;

    // the most rows and columns, and the most bytes that an operation sends
    ghost limits: { Limits };

    ghost need: { ℕ };

    // what it shows, and what a new one shows over those cells
    ghost shown: { Self → Shown Self.Cell };

    ghost first_shown: { List Self.Cell → Size → Shown Self.Cell };

    // a new one over those cells
    ghost IsNew: { Self → List Self.Cell → Size → Type 0 };

    // the bytes of an operation, and what became of the face by them
    ghost bytes_of: { Self → Operation Self.Cell → List ℕ };

    ghost Reads: { Self → List ℕ → Self → Type 0 };

    // The most rows and columns.
    fn limits() -> Limits
        ensures { result ≡ limits };

    // The most bytes that one operation sends.
    fn need() -> usize
        ensures { result ≡ need };

    // A new one over cells as they are found.
    fn new(cells: &'a mut [Self::Cell], size: Size) -> Self
        ensures held { IsNew result cells.old size }
        ensures shown { shown result ≡ first_shown cells.old size };

    // How many rows and columns it shows, none if its size is refused.
    fn size(&self) -> Size
        ensures rows { result.rows ≡ (shown self.now).rows }
        ensures columns { result.columns ≡ (shown self.now).columns }
        ensures sound { Sound (over (shown self.now) 0 need 0) };

    // Where its cursor is, none if that is unknown.
    fn cursor(&self) -> Option<Spot>
        ensures { result ≡ (shown self.now).cursor };

    // Moves the cursor.
    fn move_to(&mut self, to: Spot, line: &mut Line<'_>)
        requires { MayMove (over (shown self.old) (room_of line.old) need 0) to.row to.column }
        ensures done { Performs Self.Cell.LayerCell.layer Self.Cell.TerminalCell.glyph (shown self.old) (shown self.new) (Move to.row to.column) line.old line.new (bytes_of self.old (Move to.row to.column)) need }
        ensures read { Reads self.old (bytes_of self.old (Move to.row to.column)) self.new };

    // Puts a single where the cursor is.
    fn put(&mut self, at: Spot, cell: Self::Cell, line: &mut Line<'_>)
        requires { MayPut Self.Cell.TerminalCell.glyph (over (shown self.old) (room_of line.old) need 0) cell at }
        ensures done { Performs Self.Cell.LayerCell.layer Self.Cell.TerminalCell.glyph (shown self.old) (shown self.new) (Put cell) line.old line.new (bytes_of self.old (Put cell)) need }
        ensures read { Reads self.old (bytes_of self.old (Put cell)) self.new };

    // Puts two halves that belong together, from where the cursor is on.
    fn put_pair(&mut self, at: Spot, left: Self::Cell, right: Self::Cell, line: &mut Line<'_>)
        requires { MayPutPair Self.Cell.TerminalCell.glyph (over (shown self.old) (room_of line.old) need 0) left right at }
        ensures done { Performs Self.Cell.LayerCell.layer Self.Cell.TerminalCell.glyph (shown self.old) (shown self.new) (PutPair left right) line.old line.new (bytes_of self.old (PutPair left right)) need }
        ensures read { Reads self.old (bytes_of self.old (PutPair left right)) self.new };
}
