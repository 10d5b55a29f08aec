// The rows of a list: a line's characters laid into cells, and mended.
ghost use Rattle.std.specs.Prelude.{◌≡◌, IfOk};
ghost use Rattle.cells.specs.Rows.{mended};
ghost use Rattle.text_cells.specs.TextCells.{text_layer, text_glyph};
ghost use Rattle.pick_list.specs.Differing.{Differing};
ghost use Rattle.replay.specs.Rows.{IsLaid, IsRow};

use cells::kinds::TerminalCell;
use cells::rows::mend;
use pick_list::{Laid, count_differing, lay};
use std::alloc::{AllocError, Global};
use text_cells::TextCell;

// A line laid into a row of cells.
#[derive(Drop)]
pub struct LaidLine<C> {
    pub row: Vec<C>,
    pub laid: Laid,
}

// A line laid into a row that is mended.
#[derive(Drop)]
pub struct MendedLine {
    pub line: LaidLine<TextCell>,
    // columns that mending turned into the blank
    pub blanked: usize,
}

// Lays characters into a row of that width.
pub fn laid_line<C: TerminalCell>(
    heap: Global,
    text: &[char],
    width: usize,
) -> Result<LaidLine<C>, AllocError>
    ensures { IfOk result (λ line. IsLaid C.LayerCell.layer C.TerminalCell.glyph width text.now line.row.items line.laid) }
{
    let mut row = vec![in heap; C::blank(); width]?;
    let laid = lay(text, row.as_mut_slice());
    Ok(LaidLine { row, laid })
}

// Mends a row, and counts the columns at which it then differs from another.
fn mend_counted(raw: &[TextCell], row: &mut [TextCell]) -> usize
    ensures mended { row.new ≡ mended text_layer text_glyph row.old }
    ensures counted { Differing raw.now row.new result }
{
    mend(row);
    count_differing(raw, row)
}

// Lays characters into a row of that width and mends it.
pub fn mended_line(heap: Global, text: &[char], width: usize) -> Result<MendedLine, AllocError>
    ensures { IfOk result (λ m. IsRow width text.now m) }
{
    let raw = laid_line::<TextCell>(heap, text, width)?;
    let mut row = Vec::from_slice(heap, raw.row.as_slice())?;
    let blanked = mend_counted(raw.row.as_slice(), row.as_mut_slice());
    Ok(MendedLine {
        line: LaidLine { row, ..raw },
        blanked,
    })
}
