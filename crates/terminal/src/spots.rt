// Spots of a terminal's grid: where its cursor is known to be, and where it is after cells were put.
ghost use Rattle.std.specs.Prelude.{◌≡◌, Some};
ghost use Rattle.terminal.specs.Devices.{known};
ghost use Rattle.terminal.specs.Operations.{moved_on};

use places::Size;
pub use places::Spot;

// A stored cursor, none if it is off the grid.
pub fn on_grid(size: Size, cursor: Option<Spot>) -> Option<Spot>
    ensures { result ≡ known size.rows size.columns cursor }
{
    cursor.filter(|spot| size.holds(*spot))
}

// The spot that many columns on, none past the last column.
pub fn moved_on(columns: usize, spot: Spot, count: usize) -> Option<Spot>
    ensures { result ≡ moved_on columns (Some spot) count }
{
    if count < columns.saturating_sub(spot.column) {
        Some(Spot {
            column: spot.column + count,
            ..spot
        })
    } else {
        None
    }
}
