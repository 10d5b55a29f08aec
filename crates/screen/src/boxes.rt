// The edge of a window, drawn with attributes of its own.
ghost use Rattle.std.specs.Prelude.{◌≡◌, true, length, IfOk, MatchResult};
ghost use Rattle.faults.specs.Refusals.{fault_of};
ghost use Rattle.areas.specs.Addresses.{ends_below};
ghost use Rattle.areas.specs.Memories.{by_address};
ghost use Rattle.touching.specs.TouchedRows.{Touching};
ghost use Rattle.windows.specs.Cells.{edged, on_edge};
ghost use Rattle.windows.specs.Tables.{table_of, area_of};
ghost use Rattle.panels.specs.Decks.{deck_of, hit};
ghost use Rattle.screen.specs.States.{state_of, touched_at};
ghost use Rattle.screen.specs.Refusals.{box_refusal};

use crate::brushes::Brush;
use crate::records::Screen;
use areas::Area;
use cells::kinds::TerminalCell;
use faults::Fault;
use panels::records::Panels;
use touching::records::Touched;
use windows::records::Windows;

// The brush while something is drawn with other attributes. When this ends, on whatever way, the brush is as it was before.
struct Painting<'a> {
    brush: &'a mut Brush,
    before: Brush,
}

impl Drop for Painting<'_> {
    fn drop(self)
        ensures { self.exit.0.now ≡ self.entry.before }
    {
        *self.brush = self.before;
        let Painting {
            brush: _,
            before: _,
        } = self;
    }
}

// Draws the edge of a window; the brush has the attributes only while it is drawn.
fn draw_edge<C: TerminalCell>(
    windows: &Windows,
    brush: &mut Brush,
    memory: &mut [C],
    window: usize,
    attributes: u8,
) -> Result<Area, Fault>
    ensures refusal { fault_of result ≡ box_refusal (table_of windows.now) (length memory.old) window attributes }
    ensures wrote { IfOk result (λ a. a ≡ area_of (table_of windows.now) window) }
    ensures inside { IfOk result (λ a. ends_below 65535 a ≡ true) }
    ensures cells { MatchResult result (λ _. memory.new ≡ by_address memory.old (edged C.LayerCell.layer C.TerminalCell.glyph memory.old (area_of (table_of windows.now) window) attributes)) (λ _. memory.new ≡ memory.old) }
    ensures same { brush.new ≡ brush.old }
{
    let area = windows.area(memory.len(), window)?;
    let new = Brush::of(attributes)?;
    let before = *brush;
    let painting = Painting { brush, before };
    *painting.brush = new;
    let _ = windows.edge(memory, window, painting.brush.attributes)?;
    Ok(area)
}

// Touches what shows the edge of an area.
// That its area ends in window memory is asked, since the type that knows it is private to windows.
fn touch_edge(panels: &Panels, touched: &mut Touched, area: Area)
    requires { ends_below 65535 area ≡ true }
    ensures { Touching touched.old touched.new (hit (deck_of panels.now) (on_edge area)) }
{
    // its first and its last row, as an area of two rows: the parts that windows draws, of which it hands out none
    let ends = Area {
        pitch: (area.height - 1) * area.pitch,
        height: 2,
        ..area
    };
    let left = Area { width: 1, ..area };
    let right = Area {
        base: area.base + (area.width - 1),
        ..left
    };
    panels.touch_area(touched, ends);
    panels.touch_area(touched, left);
    panels.touch_area(touched, right);
}

impl Screen {
    // Draws a window's edge with attributes of its own; the brush is as before.
    pub fn draw_box<C: TerminalCell>(
        &mut self,
        memory: &mut [C],
        window: usize,
        attributes: u8,
    ) -> Result<(), Fault>
        ensures refusal { fault_of result ≡ box_refusal (state_of self.old).table (length memory.old) window attributes }
        ensures effect { MatchResult result (λ _. state_of self.new ≡ touched_at (state_of self.old) (hit (state_of self.old).deck (on_edge (area_of (state_of self.old).table window)))) (λ _. self.new ≡ self.old) }
        ensures cells { MatchResult result (λ _. memory.new ≡ by_address memory.old (edged C.LayerCell.layer C.TerminalCell.glyph memory.old (area_of (state_of self.old).table window) attributes)) (λ _. memory.new ≡ memory.old) }
    {
        let board = &mut self.board;
        let area = draw_edge(&board.windows, &mut board.brush, memory, window, attributes)?;
        touch_edge(&board.panels, &mut board.touched, area);
        Ok(())
    }
}
