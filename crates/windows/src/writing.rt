// The calls that write the cells of a window. Each answers the area that it wrote.
ghost use Rattle.std.specs.Prelude.{◌≡◌, length, IfOk, MatchResult};
ghost use Rattle.faults.specs.Refusals.{fault_of};
ghost use Rattle.areas.specs.Addresses.{address, row_part};
ghost use Rattle.areas.specs.Memories.{by_address};
ghost use Rattle.cell_memory.specs.Texts.{cells_of};
ghost use Rattle.cell_memory.specs.Writing.{filled, written};
ghost use Rattle.windows.specs.Cells.{scrolled, edged};
ghost use Rattle.windows.specs.Refusals.{area_refusal, write_refusal, punch_refusal, edge_refusal};
ghost use Rattle.windows.specs.Tables.{table_of, area_of};

use crate::drawing::{draw_edge, scroll_area};
use crate::records::Windows;
use crate::texts::columns_of;
use areas::Area;
use cell_memory::{fill, write_text};
use cells::kinds::{LayerCell, TerminalCell};
use faults::Fault;
use places::Spot;

// The most characters of a text.
const LONGEST_TEXT: usize = 255;

impl Windows {
    // Moves a window's rows up by one and blanks the last.
    pub fn scroll<C: LayerCell>(&self, memory: &mut [C], window: usize) -> Result<Area, Fault>
        ensures refusal { fault_of result ≡ area_refusal (table_of self.now) (length memory.old) window }
        ensures wrote { IfOk result (λ a. a ≡ area_of (table_of self.now) window) }
        ensures cells { MatchResult result (λ _. memory.new ≡ by_address memory.old (scrolled C.LayerCell.layer memory.old (area_of (table_of self.now) window))) (λ _. memory.new ≡ memory.old) }
    {
        let found = self.find_over(memory.len(), window)?;
        scroll_area(memory, found);
        Ok(found.area)
    }

    // Draws a window's edge with attributes.
    pub fn edge<C: TerminalCell>(
        &self,
        memory: &mut [C],
        window: usize,
        attributes: u8,
    ) -> Result<Area, Fault>
        ensures refusal { fault_of result ≡ edge_refusal (table_of self.now) (length memory.old) window }
        ensures wrote { IfOk result (λ a. a ≡ area_of (table_of self.now) window) }
        ensures cells { MatchResult result (λ _. memory.new ≡ by_address memory.old (edged C.LayerCell.layer C.TerminalCell.glyph memory.old (area_of (table_of self.now) window) attributes)) (λ _. memory.new ≡ memory.old) }
    {
        let found = self.find_over(memory.len(), window)?;
        let area = found.area;
        if area.height < 2 || area.width < 2 {
            return Err(Fault::TooSmallForBox);
        }
        draw_edge(memory, found, attributes);
        Ok(area)
    }

    // Makes cells of a window's row clear, from a spot on.
    pub fn punch<C: LayerCell>(
        &self,
        memory: &mut [C],
        window: usize,
        at: Spot,
        count: usize,
    ) -> Result<Area, Fault>
        ensures refusal { fault_of result ≡ punch_refusal (table_of self.now) (length memory.old) window at count }
        ensures wrote { IfOk result (λ a. a ≡ row_part (area_of (table_of self.now) window) at.row at.column count) }
        ensures cells { MatchResult result (λ _. memory.new ≡ by_address memory.old (filled C.LayerCell.layer memory.old (address (area_of (table_of self.now) window) at.row at.column) count C.LayerCell.layer.punched)) (λ _. memory.new ≡ memory.old) }
    {
        let found = self.find_over(memory.len(), window)?;
        if count > found.rest(at)? {
            return Err(Fault::Outside);
        }
        let run = found.run(at, count);
        fill(memory, run.base, count, C::punched());
        Ok(run)
    }

    // Writes a text into a window's row, from a spot on.
    pub fn write<C: TerminalCell>(
        &self,
        memory: &mut [C],
        window: usize,
        at: Spot,
        text: &[u32],
        attributes: u8,
    ) -> Result<Area, Fault>
        ensures refusal { fault_of result ≡ write_refusal (table_of self.now) (length memory.old) window at text.now }
        ensures wrote { IfOk result (λ a. a ≡ row_part (area_of (table_of self.now) window) at.row at.column (length (cells_of C.TerminalCell.glyph attributes text.now))) }
        ensures cells { MatchResult result (λ _. memory.new ≡ by_address memory.old (written C.LayerCell.layer memory.old (address (area_of (table_of self.now) window) at.row at.column) (cells_of C.TerminalCell.glyph attributes text.now))) (λ _. memory.new ≡ memory.old) }
    {
        let found = self.find_over(memory.len(), window)?;
        let rest = found.rest(at)?;
        let columns = columns_of(text).ok_or(Fault::NoWidth)?;
        if text.len() > LONGEST_TEXT || columns > rest {
            return Err(Fault::TooLong);
        }
        let width = write_text(memory, found.address(at), text, attributes);
        Ok(found.run(at, width))
    }
}
