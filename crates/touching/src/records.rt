// What is kept of the touched rows.
ghost use Rattle.std.specs.Prelude.{◌≡◌, ℕ, ◌≤◌, true, length, None, slice_index_or};
ghost use Rattle.ranges.specs.Ranges.{range_fits};

use places::Size;

// The most rows that a screen has.
pub const MOST_ROWS: usize = 64;

// The most columns that a screen has.
pub const MOST_COLUMNS: usize = 128;

// The size, and the first and last touched column of each row, none if nothing of it is touched.
// An array and a length, since touched rows are copied as a whole and take no memory of their own.
#[derive(Clone, Copy)]
pub struct Touched {
    pub(crate) size: Size,
    pub(crate) ranges: [Option<(usize, usize)>; MOST_ROWS],
    ghost long: { length ranges ≡ 64 },
    ghost tall: { size.rows ≤ 64 },
    ghost wide: { size.columns ≤ 128 },
    ghost fit: { (row : ℕ) → range_fits size.columns (slice_index_or ranges row None) ≡ true },
}
