// A record is set up; its brush and the cursor's place are set.
ghost use Rattle.std.specs.Prelude.{◌≡◌, min, MatchResult};
ghost use Rattle.faults.specs.Refusals.{fault_of};
ghost use Rattle.windows.specs.Tables.{table_of};
ghost use Rattle.screen.specs.States.{state_on, state_of, fresh_over, fresh, with_brush, with_place};
ghost use Rattle.screen.specs.Refusals.{set_up_refusal, brush_refusal, spot_refusal};

use crate::board::Board;
use crate::brushes::Brush;
use crate::records::Screen;
use faults::Fault;
use panels::records::Panels;
use places::{Size, Spot};
use touching::records::{MOST_COLUMNS, MOST_ROWS, Touched};
use windows::records::Windows;

// A board of that size with nothing on it.
fn bare(size: Size, windows: Windows) -> Board
    ensures touched { state_on result ≡ fresh_over (table_of windows) (min size.rows 64) (min size.columns 128) }
{
    Board {
        touched: Touched::new(size),
        windows,
        panels: Panels::new(),
        brush: Brush { attributes: 0 },
        place: Spot { row: 0, column: 0 },
    }
}

impl Screen {
    // A record that was never set up: it has no rows and no columns.
    pub fn new() -> Screen
        ensures { state_of result ≡ fresh 0 0 0 }
    {
        Screen {
            board: bare(Size::NONE, Windows::none()),
        }
    }

    // Fills the record anew, over window memory of so many cells.
    pub fn set_up(&mut self, size: Size, memory: usize) -> Result<(), Fault>
        ensures refusal { fault_of result ≡ set_up_refusal size memory }
        ensures effect { MatchResult result (λ _. state_of self.new ≡ fresh size.rows size.columns memory) (λ _. self.new ≡ self.old) }
    {
        // the test of `Limits`, which is a terminal's: a screen stands on none
        if !(1..=MOST_ROWS).contains(&size.rows) || !(1..=MOST_COLUMNS).contains(&size.columns) {
            return Err(Fault::BadSize);
        }
        let windows = Windows::new(memory)?;
        self.board = bare(size, windows);
        Ok(())
    }

    // Sets the attributes of the characters that are written.
    pub fn brush(&mut self, attributes: u8) -> Result<(), Fault>
        ensures refusal { fault_of result ≡ brush_refusal attributes }
        ensures effect { MatchResult result (λ _. state_of self.new ≡ with_brush (state_of self.old) attributes) (λ _. self.new ≡ self.old) }
    {
        self.board.brush = Brush::of(attributes)?;
        Ok(())
    }

    // Sets the cursor's place.
    pub fn place(&mut self, at: Spot) -> Result<(), Fault>
        ensures refusal { fault_of result ≡ spot_refusal (state_of self.old) at }
        ensures effect { MatchResult result (λ _. state_of self.new ≡ with_place (state_of self.old) at) (λ _. self.new ≡ self.old) }
    {
        self.check_spot(at)?;
        self.board.place = at;
        Ok(())
    }
}
