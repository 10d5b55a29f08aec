// Scrolling an area, and drawing its edge.
ghost use Rattle.std.specs.Prelude.{◌≡◌, ◌≤◌};
ghost use Rattle.areas.specs.Addresses.{in_area};
ghost use Rattle.areas.specs.Memories.{by_address};
ghost use Rattle.windows.specs.Cells.{scrolled, cell_of, drawn, on_side_column, edged};

use crate::window_areas::WindowArea;
use areas::Area;
use cell_memory::{fill, shift};
use cells::kinds::{LayerCell, Made, TerminalCell};

// Moves the rows of an area up by one and blanks the last.
pub(crate) fn scroll_area<C: LayerCell>(memory: &mut [C], whole: WindowArea)
    ensures { memory.new ≡ by_address memory.old (scrolled C.LayerCell.layer memory.old whole.area) }
{
    let Area {
        pitch,
        height,
        width,
        ..
    } = whole.area;
    let last = height - 1;
    // a row is where its number puts it in memory
    for row in 0..last {
        shift(memory, whole.row(row), pitch, width);
    }
    fill(memory, whole.row(last), width, C::blank());
}

// The cell that a character of one column makes.
fn cell_of<C: TerminalCell>(character: u8, attributes: u8) -> C
    ensures { result ≡ cell_of C.LayerCell.layer C.TerminalCell.glyph attributes character }
{
    match C::make(u32::from(character), attributes) {
        Made::Single(cell) => cell,
        Made::Pair(left, _) | Made::Singles(left, _) => left,
        Made::Nothing => C::blank(),
    }
}

// Writes a cell into each spot of an area.
fn draw_area<C: LayerCell>(memory: &mut [C], whole: WindowArea, cell: C)
    ensures { memory.new ≡ by_address memory.old (drawn C.LayerCell.layer memory.old (in_area whole.area) cell) }
{
    // a row is where its number puts it in memory
    for row in 0..whole.area.height {
        fill(memory, whole.row(row), whole.area.width, cell);
    }
}

// Writes a cell into the first and the last column of each row of an area.
fn draw_sides<C: LayerCell>(memory: &mut [C], whole: WindowArea, cell: C)
    ensures { memory.new ≡ by_address memory.old (drawn C.LayerCell.layer memory.old (on_side_column whole.area whole.area.height) cell) }
{
    draw_area(memory, whole.column(0), cell);
    draw_area(memory, whole.column(whole.area.width - 1), cell);
}

// Draws the edge of an area.
pub(crate) fn draw_edge<C: TerminalCell>(memory: &mut [C], whole: WindowArea, attributes: u8)
    requires { 2 ≤ whole.area.height }
    ensures { memory.new ≡ by_address memory.old (edged C.LayerCell.layer C.TerminalCell.glyph memory.old whole.area attributes) }
{
    let ends = whole.ends();
    draw_sides(memory, whole, cell_of(b'|', attributes));
    draw_area(memory, ends, cell_of(b'-', attributes));
    draw_sides(memory, ends, cell_of(b'+', attributes));
}
