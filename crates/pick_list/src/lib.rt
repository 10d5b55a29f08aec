// A pick list on a terminal: its lines laid into rows of cells; rows of cells, and where a cursor is, as text again.
#![tactic(auto)]

ghost use Rattle.std.specs.Prelude.{◌≡◌, ℕ, ◌-◌, min, length, Some, IfOk, string_bytes, MatchOption};
ghost use Rattle.std.proofs.Math.Utf8.{encodes};
ghost use Rattle.std.specs.Option.{option_to_list};
ghost use Rattle.put_rule.specs.Grids.{row_at};
ghost use Rattle.grids.specs.GridViews.{grid_rows};
ghost use Rattle.pick_list.specs.Cursors.{cursor_text};
ghost use Rattle.pick_list.specs.Laying.{cells_of, nothing_of, laid_row};
ghost use Rattle.pick_list.specs.Differing.{Differing};
ghost use Rattle.pick_list.specs.Letters;
ghost use Rattle.pick_list.specs.Showing.{HasCharacters, shown_cell, shown_row};
ghost use Rattle.pick_list.specs.WidthLine.{IsWidth};

use byte_cells::ByteCell;
use cell_memory::{fill, put_made};
use cells::kinds::TerminalCell;
use grids::grids::Grid;
use places::Spot;
use std::alloc::{AllocError, Global};
use std::fmt;
use text_cells::TextCell;

// The widest row that a pick list may ask for.
pub const WIDEST: u8 = 128;

// What became of the characters of a line.
#[derive(Clone, Copy, PartialEq, Eq, Debug)]
pub struct Laid {
    // cells that stand in the row
    pub laid: usize,
    // cells past the row's end
    pub cut: usize,
    // characters that take no column
    pub dropped: usize,
}

// Lays the cells that the characters make, without attributes, into a row from its first column; blanks fill the rest.
pub fn lay<C: TerminalCell>(text: &[char], row: &mut [C]) -> Laid
    ensures after { row.new ≡ laid_row C.LayerCell.layer C.TerminalCell.glyph (length row.old) text.now }
    ensures laid { result.laid ≡ min (length (cells_of C.TerminalCell.glyph text.now)) (length row.old) }
    ensures cut { result.cut ≡ length (cells_of C.TerminalCell.glyph text.now) - length row.old }
    ensures dropped { result.dropped ≡ nothing_of C.TerminalCell.glyph text.now }
{
    // the slice's own `fill` asks for a clone that cannot fail, which a cell kind does not promise
    fill(row, 0, row.len(), C::blank());
    let mut made = 0;
    let mut dropped = 0;
    for character in text {
        let count = put_made(row, made, C::make(u32::from(*character), 0));
        // a count is all that is answered of what was made; to match on it again would test the same twice
        if count == 0 {
            dropped += 1;
        }
        made += count;
    }
    Laid {
        laid: made.min(row.len()),
        cut: made.saturating_sub(row.len()),
        dropped,
    }
}

// At how many columns that both rows have do their cells differ?
pub fn count_differing<C: TerminalCell>(raw: &[C], mended: &[C]) -> usize
    ensures { Differing raw.now mended.now result }
{
    raw.iter()
        .zip(mended)
        .filter(|(before, after)| !before.same(**after))
        .count()
}

// The width that the first line of a pick list gives, if it is a decimal number from 1 to 128. Zeros and one plus sign may stand in front.
pub fn parse_width(line: &[u8]) -> Option<usize>
    ensures { MatchOption result ((n : ℕ) → IsWidth line.now n → ⊥) (λ n. IsWidth line.now n) }
{
    let number = std::str::from_utf8(line).ok()?.parse::<u8>().ok()?;
    (1..=WIDEST)
        .contains(&number)
        .then_some(usize::from(number))
}

// A terminal's cell that tells which character it shows, or is half of.
pub trait Lettered: TerminalCell {
    // the number of that character
    ghost letter: { Self → ℕ };

    // The character of a drawable cell.
    fn character(self) -> u32
        ensures { result ≡ letter self };

    // a drawable cell has a character that text can have
    ghost lettered: { HasCharacters Self.TerminalCell.glyph letter };
}

impl Lettered for TextCell {
    ghost letter = { λ c. c.character };

    ghost lettered = { Letters.of_text };

    fn character(self) -> u32 {
        self.character
    }
}

impl Lettered for ByteCell {
    ghost letter = { λ c. c.byte };

    ghost lettered = { Letters.of_bytes };

    fn character(self) -> u32 {
        u32::from(self.byte)
    }
}

// The character that shows a cell, none for a right half, which its left half shows too.
fn shown_character<C: Lettered>(cell: C) -> Option<char>
    ensures { option_to_list result ≡ shown_cell C.TerminalCell.glyph C.Lettered.letter cell }
{
    if !cell.is_drawable() {
        return Some('?');
    }
    if cell.is_right() {
        return None;
    }
    Some(char::from_u32(cell.character()).unwrap_or('?'))
}

// A row as text: each drawable single and left half by its character, a right half by nothing, what cannot be drawn by a question mark.
pub fn show_row<C: Lettered>(heap: Global, row: &[C]) -> Result<String, AllocError>
    ensures { IfOk result (λ s. string_bytes s ≡ encodes (shown_row C.TerminalCell.glyph C.Lettered.letter row.now)) }
{
    row.iter()
        .filter_map(|cell| shown_character(*cell))
        .collect(heap)
}

// The cells of a row of a grid, no cells off the grid.
pub fn row_cells<C: TerminalCell>(
    heap: Global,
    grid: &mut Grid<'_, C>,
    row: usize,
) -> Result<Vec<C>, AllocError>
    ensures told { IfOk result (λ cells. cells.items ≡ row_at (grid_rows grid.old) row) }
    ensures same { grid.new ≡ grid.old }
{
    let mut cells = Vec::new(heap);
    // by columns, since a grid hands out its cells one by one
    while let Some(cell) = grid.cell(Spot {
        row,
        column: cells.len(),
    }) {
        cells.push(cell)?;
    }
    Ok(cells)
}

// Where a terminal's cursor is, as the programs print it.
#[derive(Clone, Copy, PartialEq, Eq, Debug)]
pub struct Cursor(pub Option<Spot>);

impl fmt::Display for Cursor {
    ghost output = { λ c. Some (cursor_text c) };

    fn fmt<W: fmt::Write>(&self, f: &mut fmt::Formatter<W>) -> fmt::Result {
        match self.0 {
            Some(Spot { row, column }) => write!(f, "cursor {row} {column}"),
            None => f.write_str("cursor unknown"),
        }
    }
}
