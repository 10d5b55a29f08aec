// Questions about a record, and a row of its picture.
ghost use Rattle.std.specs.Prelude.{◌≡◌, ℕ, ◌&&◌, [], ◌∷◌, length, take, drop, IfOk, if◌then◌else◌, None, count_by, MatchResult, slice_index_or};
ghost use Rattle.faults.specs.Refusals.{first, fault_of};
ghost use Rattle.orders.specs.Orders.{times};
ghost use Rattle.windows.specs.Refusals.{wrong_memory};
ghost use Rattle.panels.specs.Places.{covers};
ghost use Rattle.panels.specs.Decks.{panel_of, is_shown};
ghost use Rattle.panels.specs.Pictures.{top_of};
ghost use Rattle.screen.specs.States.{state_of};
ghost use Rattle.screen.specs.Refusals.{spot_refusal, top_refusal, row_refusal, compose_refusal};
ghost use Rattle.screen.specs.Pictures.{picture_row};

use crate::records::Screen;
use cells::kinds::{LayerCell, TerminalCell};
use cells::rows::mend;
use faults::Fault;
use panels::panel::PanelList;
use places::Spot;

impl Screen {
    // Refuses a spot that is not on the screen.
    pub(crate) fn check_spot(&self, at: Spot) -> Result<(), Fault>
        ensures { fault_of result ≡ spot_refusal (state_of self.now) at }
    {
        if !self.board.touched.size().holds(at) {
            return Err(Fault::OffScreen);
        }
        Ok(())
    }

    // Refuses a row that is not on the screen.
    fn check_row(&self, row: usize) -> Result<(), Fault>
        ensures { fault_of result ≡ row_refusal (state_of self.now) row }
    {
        if row >= self.board.touched.rows() {
            return Err(Fault::OffScreen);
        }
        Ok(())
    }

    // Refuses window memory of another length than recorded.
    fn check_memory(&self, cells: usize) -> Result<(), Fault>
        ensures { fault_of result ≡ first (wrong_memory (state_of self.now).table cells ∷ []) }
    {
        if cells != self.board.windows.memory() {
            return Err(Fault::MemoryLength);
        }
        Ok(())
    }

    // The number of the topmost shown panel that covers a spot with a cell that is not clear, or none.
    pub fn top<C: LayerCell>(&self, memory: &[C], at: Spot) -> Result<Option<usize>, Fault>
        ensures refusal { fault_of result ≡ top_refusal (state_of self.now) (length memory.now) at }
        ensures told { IfOk result (λ n. n ≡ top_of C.LayerCell.layer memory.now (state_of self.now).deck at.row at.column) }
    {
        self.check_memory(memory.len())?;
        self.check_spot(at)?;
        Ok(self.board.panels.top(memory, at))
    }

    // How many shown panels cover a spot. Each of them stands once at the front of the list; its rest is as it was.
    pub fn cover(&self, at: Spot, list: &mut PanelList) -> Result<usize, Fault>
        ensures refusal { fault_of result ≡ spot_refusal (state_of self.now) at }
        ensures count { MatchResult result (λ k. k ≡ count_by (λ n. covers (panel_of (state_of self.now).deck n) at.row at.column) (state_of self.now).deck.order) (λ _. list.new ≡ list.old) }
        ensures each { IfOk result (λ k. (n : ℕ) → times n (take k list.new) ≡ (if is_shown (state_of self.now).deck n && covers (panel_of (state_of self.now).deck n) at.row at.column then 1 else 0)) }
        ensures rest { IfOk result (λ k. drop k list.new ≡ drop k list.old) }
    {
        self.check_spot(at)?;
        Ok(self.board.panels.cover(at, list))
    }

    // The first and last touched column of a row, or none.
    pub fn touched(&self, row: usize) -> Result<Option<(usize, usize)>, Fault>
        ensures refusal { fault_of result ≡ row_refusal (state_of self.now) row }
        ensures told { IfOk result (λ range. range ≡ slice_index_or (state_of self.now).ranges row None) }
    {
        self.check_row(row)?;
        Ok(self.board.touched.range(row))
    }

    // Composes a row of the picture, mended, into row memory.
    pub fn compose<C: TerminalCell>(
        &self,
        memory: &[C],
        row: usize,
        cells: &mut [C],
    ) -> Result<(), Fault>
        ensures refusal { fault_of result ≡ compose_refusal (state_of self.now) (length memory.now) row (length cells.old) }
        ensures composed { MatchResult result (λ _. cells.new ≡ picture_row C.LayerCell.layer C.TerminalCell.glyph memory.now (state_of self.now).deck (state_of self.now).columns row) (λ _. cells.new ≡ cells.old) }
    {
        self.check_memory(memory.len())?;
        self.check_row(row)?;
        if cells.len() != self.board.touched.columns() {
            return Err(Fault::MemoryLength);
        }
        self.board.panels.compose(memory, row, cells);
        mend(cells);
        Ok(())
    }
}
