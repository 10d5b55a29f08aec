// The dumb terminal: byte cells on at most 24 rows of 80 columns, and two kinds of codes, one that moves the cursor and one that shows a byte.
#![tactic(auto)]

ghost use Rattle.std.specs.Prelude.{◌≡◌, ℕ, ◌<◌, true, None, Some};
ghost use Rattle.byte_cells.specs.ByteCells.{byte_layer, byte_glyph};
ghost use Rattle.lines.specs.Sending.{room_of};
ghost use Rattle.terminal.specs.Meanings.{Sound};
ghost use Rattle.terminal.specs.Operations.{Move, Put, PutPair, refusal};
ghost use Rattle.devices.specs.Shown.{over, Performs};
ghost use Rattle.dumb.specs.Dumbs.{limits, is_usable, shown_on, first_shown, IsNew, move_bytes, bytes_of, ReadsAny};

use byte_cells::ByteCell;
use devices::device::Device;
use devices::faces::Face;
use grids::grids::Grid;
use lines::Line;
use places::{Size, Spot};
use terminal::sizes::Limits;
use terminal::spots::{moved_on, on_grid};

// Room for the longest code.
const NEED: usize = 4;

// A row and a column go as one byte each.
const LIMITS: Limits = Limits {
    rows: 24,
    columns: 80,
};

// What a dumb terminal shows: a grid of the caller's, and where its cursor is stored.
#[derive(Drop)]
pub struct DumbFace<'a> {
    pub grid: Grid<'a, ByteCell>,
    pub cursor: Option<Spot>,
}

// A dumb terminal over a grid and a line of the caller's. If its size is refused, it has no rows and no columns.
pub type Dumb<'a> = Device<'a, DumbFace<'a>>;

// The code that moves the cursor to a spot: ESC (its own, not that of ECMA-48), "=", and the row and the column, each from 32 on.
fn move_code(to: Spot) -> [u8; 4]
    requires row { to.row < 24 }
    requires column { to.column < 80 }
    ensures { result ≡ move_bytes to.row to.column }
{
    [0x1B, 0x3D, to.row as u8 + 32, to.column as u8 + 32]
}

impl<'a> DumbFace<'a> {
    // Does the check accept its size?
    fn is_usable(&self) -> bool
        ensures { result ≡ is_usable self.now }
    {
        LIMITS.allow(self.grid.size) && self.grid.size.fits(self.grid.cells.len())
    }
}

impl<'a> Face<'a> for DumbFace<'a> {
    type Cell = ByteCell;

    ghost limits = { limits };

    ghost need = { 4 };

    ghost shown = { shown_on };

    ghost first_shown = { first_shown };

    ghost IsNew = { IsNew };

    ghost bytes_of = { bytes_of };

    ghost Reads = { ReadsAny };

    fn limits() -> Limits
        ensures { result ≡ limits }
    {
        LIMITS
    }

    fn need() -> usize
        ensures { result ≡ 4 }
    {
        NEED // the code of a move
    }

    fn new(cells: &'a mut [ByteCell], size: Size) -> DumbFace<'a> {
        DumbFace {
            grid: Grid { cells, size },
            cursor: None,
        }
    }

    // Each face, as a pane too, has a test of its own for whether its size counts.
    fn size(&self) -> Size {
        if self.is_usable() {
            self.grid.size
        } else {
            Size::NONE
        }
    }

    fn cursor(&self) -> Option<Spot> {
        on_grid(self.size(), self.cursor) // known only on the grid
    }

    fn move_to(&mut self, to: Spot, line: &mut Line<'_>) {
        let code = move_code(to);
        let _ = line.send(&code); // there is room, so it is accepted
        self.cursor = Some(to);
    }

    fn put(&mut self, at: Spot, cell: ByteCell, line: &mut Line<'_>) {
        let after = moved_on(self.grid.size.columns, at, 1);
        let _ = line.send(&[cell.byte]); // there is room, so it is accepted
        let _ = self.grid.put(at, cell); // and so is a spot of the grid
        self.cursor = after;
    }

    // No two bytes belong together, so no device hands a pair on, and nothing is done with one.
    fn put_pair(&mut self, _at: Spot, _left: ByteCell, _right: ByteCell, _line: &mut Line<'_>)
        ensures face { self.new ≡ self.old }
        ensures line { _line.new ≡ _line.old }
    {}
}
