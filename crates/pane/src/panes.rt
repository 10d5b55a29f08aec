// A pane over any terminal, also over another pane.
ghost use Rattle.std.specs.Prelude.{◌≡◌, ◌+◌, ◌^◌, ◌<◌, true, not, [], ◌∷◌};
ghost use Rattle.faults.specs.Refusals.{first, fault_of};
ghost use Rattle.faults.specs.declared.Fault.TheVariants.{Outside};
ghost use Rattle.terminal.specs.Meanings.{Meaning, Sound};
ghost use Rattle.terminal.specs.Operations.{Move, Put, PutPair, refusal, Effect};
ghost use Rattle.pane_parts.specs.Panes.{pane_fits, pane_rows, pane_columns, pane_of};
ghost use Rattle.pane.specs.Panes.{SamePane};

use crate::rectangles::Rectangle;
use cells::kinds::TerminalCell;
use faults::Fault;
use places::{Size, Spot};
use terminal::refusals::{check_pair, check_single, spot_of_pair, spot_of_single};
use terminal::terminals::Terminal;

// Is the rectangle inside the terminal below, and not empty?
fn is_fit<T: Terminal>(below: &T, area: Rectangle) -> bool
    ensures told { result ≡ pane_fits (T.Terminal.meaning below.now) area }
    ensures sound { Sound (T.Terminal.meaning below.now) }
    ensures small { result ≡ true → (area.top + area.height < 2 ^ 64) × (area.left + area.width < 2 ^ 64) }
{
    // a terminal tells its size by two questions
    let size = Size {
        rows: below.rows(),
        columns: below.columns(),
    };
    area.height > 0 && area.width > 0 && area.lies_in(size)
}

// A rectangle of the terminal below. On one that is not inside, or is empty, the pane has no rows and no columns.
#[derive(Drop)]
pub struct Pane<'a, T> {
    pub below: &'a mut T,
    pub area: Rectangle,
}

impl<'a, T: Terminal> Pane<'a, T> {
    // A pane on any rectangle.
    pub fn new(below: &'a mut T, area: Rectangle) -> Pane<'a, T>
        ensures below { result.below.now ≡ below.old }
        ensures area { result.area ≡ area }
        ensures held { result.below.ghost_name ≡ below.entry.ghost_name }
    {
        Pane { below, area }
    }

    // Refuses a rectangle that is empty or not inside the terminal below.
    pub fn check(below: &T, area: Rectangle) -> Result<(), Fault>
        ensures { fault_of result ≡ first ((not (pane_fits (T.Terminal.meaning below.now) area), Outside) ∷ []) }
    {
        if !is_fit(below, area) {
            return Err(Fault::Outside);
        }
        Ok(())
    }

    // Its rows and columns, none if the rectangle is unfit.
    #[inline] // asked for at each put
    fn size(&self) -> Size
        ensures rows { result.rows ≡ pane_rows (T.Terminal.meaning self.now.below.now) self.now.area }
        ensures columns { result.columns ≡ pane_columns (T.Terminal.meaning self.now.below.now) self.now.area }
        ensures sound { Sound (T.Terminal.meaning self.now.below.now) }
        ensures small { 0 < result.rows → (self.now.area.top + result.rows < 2 ^ 64) × (self.now.area.left + result.columns < 2 ^ 64) }
    {
        if is_fit(self.below, self.area) {
            // a rectangle names its sides otherwise than a size
            Size {
                rows: self.area.height,
                columns: self.area.width,
            }
        } else {
            Size::NONE
        }
    }

    // Its cursor: that of the terminal below, counted from the rectangle's corner, none if the pane does not hold it.
    #[inline] // as `size`
    fn seen_cursor(&self) -> Option<Spot>
        ensures told { result ≡ (pane_of (T.Terminal.meaning self.now.below.now) self.now.area).cursor }
        ensures sound { Sound (T.Terminal.meaning self.now.below.now) }
    {
        let size = self.size();
        let spot = self.below.cursor()?;
        let seen = Spot {
            row: spot.row.checked_sub(self.area.top)?,
            column: spot.column.checked_sub(self.area.left)?,
        };
        size.holds(seen).then_some(seen)
    }
}

impl<'a, T: Terminal> Terminal for Pane<'a, T> {
    type Cell = T::Cell;

    ghost meaning = { λ p. pane_of (T.Terminal.meaning p.below.now) p.area };

    fn rows(&self) -> usize {
        self.size().rows
    }

    fn columns(&self) -> usize {
        self.size().columns
    }

    fn cursor(&self) -> Option<Spot> {
        self.seen_cursor()
    }

    fn room(&self) -> usize {
        self.below.room()
    }

    fn need(&self) -> usize {
        self.below.need()
    }

    fn tally(&self) -> u64 {
        self.below.tally()
    }

    fn move_to(&mut self, to: Spot) -> Result<(), Fault>
        ensures refusal { fault_of result ≡ refusal T.Cell.TerminalCell.glyph (pane_of (T.Terminal.meaning self.old.below.now) self.old.area) (Move to.row to.column) }
        ensures effect { Effect T.Cell.LayerCell.layer T.Cell.TerminalCell.glyph (pane_of (T.Terminal.meaning self.old.below.now) self.old.area) (pane_of (T.Terminal.meaning self.new.below.now) self.new.area) (Move to.row to.column) result }
        ensures below { Effect T.Cell.LayerCell.layer T.Cell.TerminalCell.glyph (T.Terminal.meaning self.old.below.now) (T.Terminal.meaning self.new.below.now) (Move (self.old.area.top + to.row) (self.old.area.left + to.column)) result }
        ensures same { SamePane self.old self.new }
    {
        if !self.size().holds(to) {
            return Err(Fault::OffGrid);
        }
        self.below.move_to(Spot {
            row: self.area.top + to.row,
            column: self.area.left + to.column,
        })
    }

    fn put(&mut self, cell: T::Cell) -> Result<(), Fault>
        ensures refusal { fault_of result ≡ refusal T.Cell.TerminalCell.glyph (pane_of (T.Terminal.meaning self.old.below.now) self.old.area) (Put cell) }
        ensures effect { Effect T.Cell.LayerCell.layer T.Cell.TerminalCell.glyph (pane_of (T.Terminal.meaning self.old.below.now) self.old.area) (pane_of (T.Terminal.meaning self.new.below.now) self.new.area) (Put cell) result }
        ensures below { Effect T.Cell.LayerCell.layer T.Cell.TerminalCell.glyph (T.Terminal.meaning self.old.below.now) (T.Terminal.meaning self.new.below.now) (Put cell) result }
        ensures same { SamePane self.old self.new }
    {
        check_single(cell)?; // before the cursor, for which a pane asks all panes below
        spot_of_single(cell, self.seen_cursor())?;
        self.below.put(cell)
    }

    fn put_pair(&mut self, left: T::Cell, right: T::Cell) -> Result<(), Fault>
        ensures refusal { fault_of result ≡ refusal T.Cell.TerminalCell.glyph (pane_of (T.Terminal.meaning self.old.below.now) self.old.area) (PutPair left right) }
        ensures effect { Effect T.Cell.LayerCell.layer T.Cell.TerminalCell.glyph (pane_of (T.Terminal.meaning self.old.below.now) self.old.area) (pane_of (T.Terminal.meaning self.new.below.now) self.new.area) (PutPair left right) result }
        ensures below { Effect T.Cell.LayerCell.layer T.Cell.TerminalCell.glyph (T.Terminal.meaning self.old.below.now) (T.Terminal.meaning self.new.below.now) (PutPair left right) result }
        ensures same { SamePane self.old self.new }
    {
        check_pair(left, right)?; // as above
        spot_of_pair(left, right, self.size().columns, self.seen_cursor())?;
        self.below.put_pair(left, right)
    }
}
