// The text cell: a character or one half of it, with attributes; or a clear cell.
#![tactic(auto)]

ghost use Rattle.std.specs.Prelude.{◌≡◌};
ghost use Rattle.text_cells.specs.TextCells.{text, fits_width, text_layer, text_glyph};
ghost use Rattle.std.proofs.Common.{rules};
ghost use Rattle.text_cells.specs.Laws;

use cells::attributes::are_attributes;
use cells::kinds::{LayerCell, Made, TerminalCell};
use cells::widths::Width;

// Which part of its character a cell is, or none of any.
#[derive(Clone, Copy, PartialEq, Eq, Debug)]
pub enum Part {
    Single,
    Left,
    Right,
    Clear,
}

// A cell of a terminal that shows Unicode text.
#[derive(Clone, Copy, PartialEq, Eq, Debug)]
pub struct TextCell {
    pub character: u32,
    pub part: Part,
    // the sum of the attributes that are set; above 15 the cell is undrawable
    pub attributes: u8,
}

impl TextCell {
    // A cell of these three.
    pub fn new(character: u32, part: Part, attributes: u8) -> TextCell
        ensures { result ≡ text character part attributes }
    {
        TextCell {
            character,
            part,
            attributes,
        }
    }
}

// Is a character of that width drawable as that part?
fn fits_width(part: Part, width: Width) -> bool
    ensures { result ≡ fits_width part width }
{
    matches!(
        (part, width),
        (Part::Single, Width::One) | (Part::Left | Part::Right, Width::Two)
    )
}

impl LayerCell for TextCell {
    ghost layer = { text_layer };

    ghost punched_is_clear = { Prim.search rules };

    fn is_clear(self) -> bool {
        matches!(self.part, Part::Clear)
    }

    fn blank() -> TextCell {
        TextCell::new(32, Part::Single, 0)
    }

    fn punched() -> TextCell {
        TextCell::new(0, Part::Clear, 0)
    }
}

impl TerminalCell for TextCell {
    ghost glyph = { text_glyph };

    ghost lawful = { Laws.lawful };

    fn is_drawable(self) -> bool {
        are_attributes(self.attributes) && fits_width(self.part, Width::of(self.character))
    }

    fn is_single(self) -> bool {
        matches!(self.part, Part::Single)
    }

    fn is_left(self) -> bool {
        matches!(self.part, Part::Left)
    }

    fn is_right(self) -> bool {
        matches!(self.part, Part::Right)
    }

    fn same(self, other: TextCell) -> bool {
        self == other
    }

    fn belongs_with(self, right: TextCell) -> bool {
        self.is_left()
            && right.is_right()
            && self.is_drawable()
            && right.is_drawable()
            && self.character == right.character
            && self.attributes == right.attributes
    }

    fn make(character: u32, attributes: u8) -> Made<TextCell> {
        if !are_attributes(attributes) {
            return Made::Nothing;
        }
        match Width::of(character) {
            Width::Zero => Made::Nothing,
            Width::One => Made::Single(TextCell::new(character, Part::Single, attributes)),
            Width::Two => Made::Pair(
                TextCell::new(character, Part::Left, attributes),
                TextCell::new(character, Part::Right, attributes),
            ),
        }
    }
}
