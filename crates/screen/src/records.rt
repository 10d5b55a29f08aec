// What a screen record holds.
ghost use Rattle.std.specs.Prelude.{◌≡◌, ℕ, true, None, slice_index_or};
ghost use Rattle.windows.specs.Tables.{table_of};
ghost use Rattle.panels.specs.Decks.{deck_of};
ghost use Rattle.screen.specs.Views.{view_below};

use crate::board::Board;

// A board on which every panel's view lies in the cells that windows have taken.
#[derive(Clone, Copy)]
pub struct Screen {
    pub(crate) board: Board,
    ghost seen: { (number : ℕ) → view_below (table_of board.windows).taken (slice_index_or (deck_of board.panels).given number None) ≡ true },
}
