// What is printed of a terminal once the list is on it: the bytes sent, the grid, and what it tells of itself.
ghost use Rattle.std.specs.Prelude.{◌≡◌, Some};
ghost use Rattle.replay.specs.Outcomes.{outcome_text};

use dumb::Dumb;
use ecma48::Ecma48;
use grids::grids::Grid;
use pick_list::{Cursor, Lettered, row_cells, show_row};
use std::alloc::{AllocError, Global};
use std::{fmt, io};
use terminal::terminals::Terminal;

// A terminal of which the bytes sent and the grid can be looked at. Its rows come as text: a trait that lends the grid names the lifetime of the
// grid's memory, and a function under such a bound got no generated proof. One impl for all devices would be no plainer: it would ask their faces
// for a row, by a trait with two impls like these.
pub trait Inspected: Terminal {
    // The bytes that it sent.
    fn bytes(&self) -> &[u8];

    // A row of its grid as text.
    fn row_text(&mut self, heap: Global, row: usize) -> Result<String, AllocError>;
}

impl<'a> Inspected for Dumb<'a> {
    fn bytes(&self) -> &[u8] {
        self.sent_bytes()
    }

    fn row_text(&mut self, heap: Global, row: usize) -> Result<String, AllocError> {
        grid_row(heap, &mut self.face.grid, row)
    }
}

impl<'a> Inspected for Ecma48<'a> {
    fn bytes(&self) -> &[u8] {
        self.sent_bytes()
    }

    fn row_text(&mut self, heap: Global, row: usize) -> Result<String, AllocError> {
        grid_row(heap, &mut self.face.emulator.grid, row)
    }
}

// A row of a grid as text.
fn grid_row<C: Lettered>(
    heap: Global,
    grid: &mut Grid<'_, C>,
    row: usize,
) -> Result<String, AllocError> {
    let cells = row_cells(heap, grid, row)?;
    show_row(heap, cells.as_slice())
}

// What a terminal tells of itself.
#[derive(Clone, Copy)]
pub struct Outcome {
    tally: u64,
    cursor: Cursor,
    room: usize,
}

impl Outcome {
    // What a terminal tells now.
    pub fn of<T: Terminal>(terminal: &T) -> Outcome
        ensures tally { result.tally ≡ (T.Terminal.meaning terminal.now).tally }
        ensures cursor { result.cursor.0 ≡ (T.Terminal.meaning terminal.now).cursor }
        ensures room { result.room ≡ (T.Terminal.meaning terminal.now).room }
    {
        Outcome {
            tally: terminal.tally(),
            cursor: Cursor(terminal.cursor()),
            room: terminal.room(),
        }
    }
}

impl fmt::Display for Outcome {
    ghost output = { λ o. Some (outcome_text o) };

    fn fmt<W: fmt::Write>(&self, f: &mut fmt::Formatter<W>) -> fmt::Result {
        let Outcome {
            tally,
            cursor,
            room,
        } = *self;
        write!(f, "tally {tally} {cursor} room {room}")
    }
}

// Prints bytes in hex, 16 to a line.
pub fn print_bytes(rt: &HostRuntime, bytes: &[u8]) -> io::Result<()> {
    let sent = bytes.len();
    println!(rt; "sent {sent} bytes")?;
    for (index, byte) in bytes.iter().enumerate() {
        let end = if index % 16 == 15 || index + 1 == sent {
            "\n"
        } else {
            " "
        };
        print!(rt; "{byte:02x}{end}")?;
    }
    Ok(())
}

// Prints a terminal's grid, each row between bars.
pub fn print_grid<T: Inspected>(rt: &HostRuntime, terminal: &mut T) -> io::Result<()> {
    // a row is asked for by its number
    for row in 0..terminal.rows() {
        println!(rt; "|{}|", terminal.row_text(rt.alloc(), row)?)?;
    }
    Ok(())
}
