// The calls on windows, over window memory of the caller's.
ghost use Rattle.std.specs.Prelude.{◌≡◌, ◌*◌, length, MatchResult};
ghost use Rattle.faults.specs.Refusals.{fault_of};
ghost use Rattle.areas.specs.Addresses.{address, row_part, in_area};
ghost use Rattle.areas.specs.Memories.{by_address};
ghost use Rattle.cell_memory.specs.Texts.{cells_of};
ghost use Rattle.cell_memory.specs.Writing.{filled, written};
ghost use Rattle.windows.specs.Cells.{scrolled};
ghost use Rattle.windows.specs.Refusals.{make_refusal, share_refusal, area_refusal, write_refusal, punch_refusal};
ghost use Rattle.windows.specs.Tables.{area_of, with_window, with_part};
ghost use Rattle.panels.specs.Decks.{hit};
ghost use Rattle.screen.specs.States.{state_of, with_table, touched_at};

use crate::records::Screen;
use cells::kinds::{LayerCell, TerminalCell};
use faults::Fault;
use places::{Rectangle, Size, Spot};

impl Screen {
    // Takes cells after those taken, blanks them, and answers the new window's number.
    pub fn window<C: LayerCell>(&mut self, memory: &mut [C], size: Size) -> Result<usize, Fault>
        ensures refusal { fault_of result ≡ make_refusal (state_of self.old).table (length memory.old) size }
        ensures effect { MatchResult result (λ n. (n ≡ length (state_of self.old).table.windows) × (state_of self.new ≡ with_table (state_of self.old) (with_window (state_of self.old).table size))) (λ _. self.new ≡ self.old) }
        ensures cells { MatchResult result (λ _. memory.new ≡ by_address memory.old (filled C.LayerCell.layer memory.old (state_of self.old).table.taken (size.rows * size.columns) C.LayerCell.layer.blank)) (λ _. memory.new ≡ memory.old) }
    {
        // taken out by `?` and answered again: as the bare answer of the call the proof did not close
        let number = self.board.windows.make(memory, size)?;
        Ok(number)
    }

    // A window that shares a rectangle of a window's cells; its number.
    pub fn subwindow(&mut self, window: usize, part: Rectangle) -> Result<usize, Fault>
        ensures refusal { fault_of result ≡ share_refusal (state_of self.old).table window part }
        ensures effect { MatchResult result (λ n. (n ≡ length (state_of self.old).table.windows) × (state_of self.new ≡ with_table (state_of self.old) (with_part (state_of self.old).table window part))) (λ _. self.new ≡ self.old) }
    {
        // taken out and answered again, as above
        let number = self.board.windows.share(window, part)?;
        Ok(number)
    }

    // Writes a text into a window's row, from a spot on, with the brush's attributes.
    pub fn write<C: TerminalCell>(
        &mut self,
        memory: &mut [C],
        window: usize,
        at: Spot,
        text: &[u32],
    ) -> Result<(), Fault>
        ensures refusal { fault_of result ≡ write_refusal (state_of self.old).table (length memory.old) window at text.now }
        ensures effect { MatchResult result (λ _. state_of self.new ≡ touched_at (state_of self.old) (hit (state_of self.old).deck (in_area (row_part (area_of (state_of self.old).table window) at.row at.column (length (cells_of C.TerminalCell.glyph (state_of self.old).brush text.now)))))) (λ _. self.new ≡ self.old) }
        ensures cells { MatchResult result (λ _. memory.new ≡ by_address memory.old (written C.LayerCell.layer memory.old (address (area_of (state_of self.old).table window) at.row at.column) (cells_of C.TerminalCell.glyph (state_of self.old).brush text.now))) (λ _. memory.new ≡ memory.old) }
    {
        let attributes = self.board.brush.attributes;
        let area = self
            .board
            .windows
            .write(memory, window, at, text, attributes)?;
        self.board.panels.touch_area(&mut self.board.touched, area);
        Ok(())
    }

    // Makes cells of a window's row clear, from a spot on.
    pub fn punch<C: LayerCell>(
        &mut self,
        memory: &mut [C],
        window: usize,
        at: Spot,
        count: usize,
    ) -> Result<(), Fault>
        ensures refusal { fault_of result ≡ punch_refusal (state_of self.old).table (length memory.old) window at count }
        ensures effect { MatchResult result (λ _. state_of self.new ≡ touched_at (state_of self.old) (hit (state_of self.old).deck (in_area (row_part (area_of (state_of self.old).table window) at.row at.column count)))) (λ _. self.new ≡ self.old) }
        ensures cells { MatchResult result (λ _. memory.new ≡ by_address memory.old (filled C.LayerCell.layer memory.old (address (area_of (state_of self.old).table window) at.row at.column) count C.LayerCell.layer.punched)) (λ _. memory.new ≡ memory.old) }
    {
        let area = self.board.windows.punch(memory, window, at, count)?;
        self.board.panels.touch_area(&mut self.board.touched, area);
        Ok(())
    }

    // Moves a window's rows up by one and blanks the last.
    pub fn scroll<C: LayerCell>(&mut self, memory: &mut [C], window: usize) -> Result<(), Fault>
        ensures refusal { fault_of result ≡ area_refusal (state_of self.old).table (length memory.old) window }
        ensures effect { MatchResult result (λ _. state_of self.new ≡ touched_at (state_of self.old) (hit (state_of self.old).deck (in_area (area_of (state_of self.old).table window)))) (λ _. self.new ≡ self.old) }
        ensures cells { MatchResult result (λ _. memory.new ≡ by_address memory.old (scrolled C.LayerCell.layer memory.old (area_of (state_of self.old).table window))) (λ _. memory.new ≡ memory.old) }
    {
        let area = self.board.windows.scroll(memory, window)?;
        self.board.panels.touch_area(&mut self.board.touched, area);
        Ok(())
    }
}
