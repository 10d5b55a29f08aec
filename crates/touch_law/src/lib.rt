// The law of touching: whatever a call does, outside the touched range of a row its picture is as it was.
#![tactic(auto)]

ghost use Rattle.std.specs.Prelude.{◌≡◌, IfOk, None, slice_index_or};
ghost use Rattle.faults.specs.Refusals.{fault_of};
ghost use Rattle.ranges.specs.Ranges.{inside};
ghost use Rattle.screen.specs.Refusals.{row_refusal};
ghost use Rattle.screen.specs.States.{state_of};
ghost use Rattle.touch_law.specs.Law.{PanelCallsTouch, WindowCallsTouch};

use cells::kinds::TerminalCell;
use faults::Fault;
use places::Spot;
use screen::records::Screen;

// Is a spot in the touched range of its row? Only such a spot may show another cell of the picture than before the last call:
// that holds of every record and every window memory, for each call that may come next.
pub fn is_touched<C: TerminalCell>(
    screen: &Screen,
    _memory: &[C],
    spot: Spot,
) -> Result<bool, Fault>
    ensures refusal { fault_of result ≡ row_refusal (state_of screen.now) spot.row }
    ensures told { IfOk result (λ b. b ≡ inside (slice_index_or (state_of screen.now).ranges spot.row None) spot.column) }
    ensures panel_calls { PanelCallsTouch C.LayerCell.layer C.TerminalCell.glyph (state_of screen.now) _memory.now }
    ensures window_calls { WindowCallsTouch C.LayerCell.layer C.TerminalCell.glyph (state_of screen.now) _memory.now }
{
    let range = screen.touched(spot.row)?;
    Ok(range.is_some_and(|(first, last)| (first..=last).contains(&spot.column)))
}
