// The byte cell: one byte of a terminal that shows ASCII without attributes.
#![tactic(auto)]

ghost use Rattle.byte_cells.specs.ByteCells.{byte_layer, byte_glyph};
ghost use Rattle.std.proofs.Common.{rules};
ghost use Rattle.byte_cells.specs.Laws;

use cells::attributes::are_attributes;
use cells::kinds::{LayerCell, Made, TerminalCell};
use cells::widths::Width;

// A byte: 0 is clear, 32 to 126 are drawable singles, any other is neither.
#[derive(Clone, Copy, PartialEq, Eq, Debug)]
pub struct ByteCell {
    pub byte: u8,
}

// What stands for a character that has no byte of its own.
const UNKNOWN: ByteCell = ByteCell { byte: 63 };

impl LayerCell for ByteCell {
    ghost layer = { byte_layer };

    ghost punched_is_clear = { Prim.search rules };

    fn is_clear(self) -> bool {
        self.byte == 0
    }

    fn blank() -> ByteCell {
        ByteCell { byte: 32 }
    }

    fn punched() -> ByteCell {
        ByteCell { byte: 0 }
    }
}

impl TerminalCell for ByteCell {
    ghost glyph = { byte_glyph };

    ghost lawful = { Laws.lawful };

    fn is_drawable(self) -> bool {
        matches!(self.byte, 32..=126)
    }

    fn is_single(self) -> bool {
        self.is_drawable()
    }

    fn is_left(self) -> bool {
        false // no byte is a left half
    }

    fn is_right(self) -> bool {
        false // nor a right half
    }

    fn same(self, other: ByteCell) -> bool {
        self == other
    }

    fn belongs_with(self, _right: ByteCell) -> bool {
        false // so none belong together
    }

    fn make(character: u32, attributes: u8) -> Made<ByteCell> {
        if !are_attributes(attributes) {
            return Made::Nothing;
        }
        match Width::of(character) {
            Width::Zero => Made::Nothing,
            Width::One if character <= 126 => Made::Single(ByteCell {
                byte: character as u8,
            }),
            Width::One => Made::Single(UNKNOWN),
            Width::Two => Made::Singles(UNKNOWN, UNKNOWN),
        }
    }
}
