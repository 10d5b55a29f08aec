// The emulator: a screen that shows what the bytes sent to a terminal of ECMA-48 mean.
#![tactic(auto)]

ghost use Rattle.std.specs.Prelude.{◌≡◌, Some};
ghost use Rattle.reader.specs.declared.states.Action.TheVariants.{Show, Right, To};
ghost use Rattle.emulator.specs.Screens.{read_byte, read_bytes, acts, does, with_state, CursorOnGrid, CompletesNothing, moved_to, right_by};
ghost use Rattle.emulator.specs.Emulators.{screen_of, first_screen, Kept};

use cells::kinds::{Made, TerminalCell};
use grids::grids::Grid;
use places::{Size, Spot};
use reader::states::{Action, State, Step};
use reader::steps::{ESC, begin_character, begin_sequence, continue_character, continue_sequence};
use terminal::spots::{moved_on, on_grid};
use text_cells::TextCell;

// A reader of bytes on a grid of the caller's.
#[derive(Drop)]
pub struct Emulator<'a> {
    pub grid: Grid<'a, TextCell>,
    // where the next character goes, none if that is unknown
    pub cursor: Option<Spot>,
    // the attributes of the characters to come
    pub pen: u8,
    pub state: State,
}

// The spot of a row and a column, the numbers of a sequence, counted from 1; at the edge if they lie past it, none on an empty grid.
fn spot_of(size: Size, row: u16, column: u16) -> Option<Spot>
    ensures { result ≡ moved_to size.rows size.columns row column }
{
    if size.rows == 0 || size.columns == 0 {
        return None;
    }
    Some(Spot {
        row: usize::from(row.saturating_sub(1)).min(size.rows - 1),
        column: usize::from(column.saturating_sub(1)).min(size.columns - 1),
    })
}

// The spot that many columns to the right, at most in the last column.
fn spot_right(columns: usize, spot: Spot, count: u16) -> Spot
    ensures { Some result ≡ right_by columns (Some spot) count }
{
    let last = columns.saturating_sub(1);
    Spot {
        column: spot.column.saturating_add(usize::from(count)).min(last),
        ..spot
    }
}

// What each change keeps of the grid's memory (`Kept`) relates the grid before and after, so it is said of each and is no field's invariant.
impl<'a> Emulator<'a> {
    // An emulator on a grid as it is found, with an unknown cursor and no attributes.
    pub fn new(cells: &'a mut [TextCell], size: Size) -> Emulator<'a>
        ensures cells { result.grid.cells.now ≡ cells.old }
        ensures size { result.grid.size ≡ size }
        ensures screen { screen_of result ≡ first_screen cells.old size }
    {
        Emulator {
            grid: Grid { cells, size },
            cursor: None,
            pen: 0,
            state: State::Plain,
        }
    }

    // Its rows and columns, none on memory that does not fit them.
    pub fn size(&self) -> Size
        ensures rows { result.rows ≡ (screen_of self.now).rows }
        ensures columns { result.columns ≡ (screen_of self.now).columns }
    {
        self.grid.size.over(self.grid.cells.len())
    }

    // Where the next character goes, none if that is unknown.
    pub fn cursor(&self) -> Option<Spot>
        ensures { result ≡ (screen_of self.now).cursor }
    {
        on_grid(self.size(), self.cursor)
    }

    // Shows a character with the pen's attributes. It is dropped if it has no width or passes the last column, and while the cursor is unknown.
    #[inline(always)] // as `take`
    fn show(&mut self, character: u32)
        ensures screen { screen_of self.new ≡ acts (screen_of self.old) (Show character) }
        ensures kept { Kept self.old.grid self.new.grid }
    {
        let size = self.size();
        let Some(spot) = on_grid(size, self.cursor) else {
            return;
        };
        let (put, count) = match TextCell::make(character, self.pen) {
            Made::Single(cell) => (self.grid.put(spot, cell), 1),
            Made::Pair(left, right) => (self.grid.put_pair(spot, left, right), 2),
            Made::Nothing | Made::Singles(_, _) => return,
        };
        if put.is_ok() {
            self.cursor = moved_on(size.columns, spot, count);
        }
    }

    // Does what a byte completed.
    #[inline(always)] // as `take`
    fn act(&mut self, action: Action)
        ensures screen { screen_of self.new ≡ acts (screen_of self.old) action }
        ensures kept { Kept self.old.grid self.new.grid }
    {
        match action {
            Action::Show(character) => self.show(character),
            Action::Right(count) => {
                let columns = self.size().columns;
                self.cursor = self.cursor().map(|spot| spot_right(columns, spot, count));
            }
            Action::To(row, column) => self.cursor = spot_of(self.size(), row, column),
            Action::SetPen(attributes) => self.pen = attributes,
        }
    }

    // Stands where a byte led to, and does what it completed, if anything.
    #[inline(always)] // the answer of each arm of `read` is taken where it is made, and does not go through memory
    fn take(&mut self, step: Step)
        ensures screen { screen_of self.new ≡ does (with_state step.0 (screen_of self.old)) step.1 }
        ensures kept { Kept self.old.grid self.new.grid }
    {
        let (state, action) = step;
        self.state = state;
        if let Some(action) = action {
            self.act(action);
        }
    }

    // Reads a byte: every byte is taken, in every state.
    pub fn read(&mut self, byte: u8)
        ensures screen { screen_of self.new ≡ read_byte (screen_of self.old) byte }
        ensures kept { Kept self.old.grid self.new.grid }
    {
        match (self.state, byte) {
            (State::Plain, ESC) => self.take(begin_sequence()),
            (State::Plain, _) => self.take(begin_character(byte)),
            (State::InSequence(sequence), _) => self.take(continue_sequence(sequence, byte)),
            (State::InCharacter(gathered), _) => self.take(continue_character(gathered, byte)),
        }
    }

    // Reads bytes one after another.
    pub fn read_all(&mut self, bytes: &[u8])
        ensures screen { screen_of self.new ≡ read_bytes (screen_of self.old) bytes.now }
        ensures kept { Kept self.old.grid self.new.grid }
        ensures cursor { CursorOnGrid (screen_of self.new) }
        ensures garbage { CompletesNothing self.old.state bytes.now → screen_of self.new ≡ with_state self.new.state (screen_of self.old) }
    {
        for byte in bytes {
            self.read(*byte);
        }
    }
}
