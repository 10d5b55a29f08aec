// The interface of a terminal, by what each operation does to its meaning.
ghost use Rattle.std.specs.Prelude.{◌≡◌};
ghost use Rattle.terminal.specs.Meanings.{Meaning, Sound};
ghost use Rattle.faults.specs.Refusals.{fault_of};
ghost use Rattle.terminal.specs.Operations.{Operation, Move, Put, PutPair, refusal, Effect};

use cells::kinds::TerminalCell;
use faults::Fault;
use places::Spot;

// A terminal of any kind. A refused operation changes nothing.
pub trait Terminal {
    // the kind of cell that it shows
    type Cell: TerminalCell;

    ghost meaning: { Self → Meaning Self.Cell };

    // How many rows it has. What holds of every meaning is promised here.
    fn rows(&self) -> usize
        ensures told { result ≡ (meaning self.now).rows }
        ensures sound { Sound (meaning self.now) };

    // How many columns it has.
    fn columns(&self) -> usize
        ensures told { result ≡ (meaning self.now).columns };

    // Where its cursor is, none if that is unknown.
    fn cursor(&self) -> Option<Spot>
        ensures told { result ≡ (meaning self.now).cursor };

    // How many bytes the line takes before it is full.
    fn room(&self) -> usize
        ensures told { result ≡ (meaning self.now).room };

    // The most bytes that one operation takes.
    fn need(&self) -> usize
        ensures told { result ≡ (meaning self.now).need };

    // How many cells were put, modulo 2 ^ 64.
    fn tally(&self) -> u64
        ensures told { result ≡ (meaning self.now).tally };

    // Moves the cursor to a spot.
    fn move_to(&mut self, to: Spot) -> Result<(), Fault>
        ensures refusal { fault_of result ≡ refusal Self.Cell.TerminalCell.glyph (meaning self.old) (Move to.row to.column) }
        ensures effect { Effect Self.Cell.LayerCell.layer Self.Cell.TerminalCell.glyph (meaning self.old) (meaning self.new) (Move to.row to.column) result };

    // Puts a single at the cursor.
    fn put(&mut self, cell: Self::Cell) -> Result<(), Fault>
        ensures refusal { fault_of result ≡ refusal Self.Cell.TerminalCell.glyph (meaning self.old) (Put cell) }
        ensures effect { Effect Self.Cell.LayerCell.layer Self.Cell.TerminalCell.glyph (meaning self.old) (meaning self.new) (Put cell) result };

    // Puts two halves that belong together, from the cursor on.
    fn put_pair(&mut self, left: Self::Cell, right: Self::Cell) -> Result<(), Fault>
        ensures refusal { fault_of result ≡ refusal Self.Cell.TerminalCell.glyph (meaning self.old) (PutPair left right) }
        ensures effect { Effect Self.Cell.LayerCell.layer Self.Cell.TerminalCell.glyph (meaning self.old) (meaning self.new) (PutPair left right) result };
}
