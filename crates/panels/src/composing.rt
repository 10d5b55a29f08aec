// Composing: which panel is on top at a spot, and the cells of a row.
ghost use Rattle.std.specs.Prelude.{◌≡◌, true, option_copied};
ghost use Rattle.areas.specs.Memories.{by_address};
ghost use Rattle.panels.specs.Places.{covers, shown_address, is_small};
ghost use Rattle.panels.specs.Decks.{deck_of, panel_in, panel_of};
ghost use Rattle.panels.specs.Pictures.{seen_cell, top_of, raw};

use crate::panel::Panel;
use crate::records::Panels;
use crate::small::SmallPanel;
use cells::kinds::LayerCell;
use places::Spot;

impl Panels {
    // The small panel of a number, none if it was never given: lent, since a copy of it reads all of it.
    pub(crate) fn small(&self, number: usize) -> Option<&SmallPanel>
        ensures { panel_in (option_copied result) ≡ panel_of (deck_of self.now) number }
    {
        self.given.get(number)?.as_ref()
    }

    // The panel of a number, none if it was never given.
    pub fn panel(&self, number: usize) -> Option<Panel>
        ensures told { result ≡ panel_of (deck_of self.now) number }
        ensures small { is_small result ≡ true }
    {
        self.small(number).map(|given| given.panel)
    }

    // The address of the cell that a panel shows at a spot, none if it does not cover that.
    fn address(&self, number: usize, at: Spot) -> Option<usize>
        ensures { result ≡ shown_address (panel_of (deck_of self.now) number) at.row at.column }
    {
        self.small(number)?.address(at)
    }

    // Does a panel cover a spot?
    pub(crate) fn covers(&self, number: usize, at: Spot) -> bool
        ensures { result ≡ covers (panel_of (deck_of self.now) number) at.row at.column }
    {
        self.address(number, at).is_some()
    }

    // The cell with which a panel covers a spot, none if it does not cover that or the cell is clear.
    fn seen<C: LayerCell>(&self, memory: &[C], number: usize, at: Spot) -> Option<C>
        ensures { result ≡ seen_cell C.LayerCell.layer memory.now (panel_of (deck_of self.now) number) at.row at.column }
    {
        let address = self.address(number, at)?;
        let cell = memory.get(address).copied().unwrap_or(C::punched());
        if cell.is_clear() { None } else { Some(cell) }
    }

    // The topmost shown panel that covers a spot with a cell that is not clear.
    pub fn top<C: LayerCell>(&self, memory: &[C], at: Spot) -> Option<usize>
        ensures { result ≡ top_of C.LayerCell.layer memory.now (deck_of self.now) at.row at.column }
    {
        self.order
            .numbers()
            .iter()
            .rev()
            .find(|number| self.seen(memory, **number, at).is_some())
            .copied()
    }

    // The raw cell of a spot: that of the panel on top, the blank where there is none.
    fn raw_cell<C: LayerCell>(&self, memory: &[C], at: Spot) -> C
        ensures { result ≡ raw C.LayerCell.layer memory.now (deck_of self.now) at.row at.column }
    {
        self.top(memory, at)
            .and_then(|number| self.seen(memory, number, at))
            .unwrap_or(C::blank())
    }

    // Composes a row: the raw cell of each column.
    pub fn compose<C: LayerCell>(&self, memory: &[C], row: usize, cells: &mut [C])
        ensures { cells.new ≡ by_address cells.old (raw C.LayerCell.layer memory.now (deck_of self.now) row) }
    {
        for (column, cell) in cells.iter_mut().enumerate() {
            *cell = self.raw_cell(memory, Spot { row, column });
        }
    }
}
