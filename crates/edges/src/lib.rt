// The edge cases of the rules as one table, shown by computing with the definitions that the contracts cite.
#![tactic(auto)]

ghost use Rattle.edges.specs.Table.{EdgeTable};

use text_cells::{Part, TextCell};

// The two halves of the wide character 0x4E2D, of which the table speaks; the left one part by part, since the table is computed with its parts.
#[tactic(auto, unfolding(cells::specs::Rows::mended, grids::specs::Putting::put_row, ranges::specs::Ranges::smallest, ranges::specs::Ranges::touch))]
pub fn edge_table() -> (TextCell, TextCell)
    ensures { EdgeTable result.0 result.1 }
{
    let left = TextCell {
        character: 0x4E2D,
        part: Part::Left,
        attributes: 0,
    };
    let right = TextCell {
        part: Part::Right,
        ..left
    };
    (left, right)
}
