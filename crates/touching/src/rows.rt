// Rows are touched, and asked for what is touched of them.
ghost use Rattle.std.specs.Prelude.{◌≡◌, ◌≤◌, min, true, replicate, None, slice_index_or};
ghost use Rattle.ranges.specs.Ranges.{range_fits, touched_row, joined_range};
ghost use Rattle.cells.specs.Widths.{within};
ghost use Rattle.touching.specs.TouchedRows.{ranges_of, in_run, in_rectangle, Touching};

use crate::records::{MOST_COLUMNS, MOST_ROWS, Touched};
use places::{Rectangle, Size};

// A range joined with the columns from `low` to `high`. Ranges are pairs of a first and a last column throughout: a rule of the project.
fn joined(range: Option<(usize, usize)>, low: usize, high: usize) -> (usize, usize)
    ensures { result ≡ joined_range range low high }
{
    match range {
        Some((first, last)) => (first.min(low), last.max(high)),
        None => (low, high),
    }
}

// The range of a row of that many columns once a run of them, both ends included, was touched.
fn touched(
    columns: usize,
    range: Option<(usize, usize)>,
    first: usize,
    last: usize,
) -> Option<(usize, usize)>
    requires { range_fits columns range ≡ true }
    ensures { result ≡ touched_row columns range (within first last) }
{
    if columns == 0 || last < first || columns < first {
        return range;
    }
    let low = first.saturating_sub(1);
    let high = last.saturating_add(1).min(columns - 1);
    Some(joined(range, low, high))
}

impl Touched {
    // Rows of which nothing is touched, at most 64, and columns, at most 128.
    pub fn new(size: Size) -> Touched
        ensures rows { result.size.rows ≡ min size.rows 64 }
        ensures columns { result.size.columns ≡ min size.columns 128 }
        ensures ranges { ranges_of result ≡ replicate (min size.rows 64) None }
    {
        let ranges = [None; MOST_ROWS];
        Touched {
            size: Size {
                rows: size.rows.min(MOST_ROWS),
                columns: size.columns.min(MOST_COLUMNS),
            },
            ranges,
        }
    }

    // How many rows and columns there are.
    pub fn size(&self) -> Size
        ensures told { result ≡ self.now.size }
        ensures few_rows { result.rows ≤ 64 }
        ensures few_columns { result.columns ≤ 128 }
    {
        self.size // at most 64 rows and 128 columns
    }

    // How many rows there are.
    pub fn rows(&self) -> usize
        ensures told { result ≡ self.now.size.rows }
        ensures few { result ≤ 64 }
    {
        self.size.rows
    }

    // How many columns there are.
    pub fn columns(&self) -> usize
        ensures told { result ≡ self.now.size.columns }
        ensures few { result ≤ 128 }
    {
        self.size.columns
    }

    // The range of a row, none also past the last row.
    pub fn range(&self, row: usize) -> Option<(usize, usize)>
        ensures { result ≡ slice_index_or (ranges_of self.now) row None }
    {
        self.ranges[..self.size.rows].get(row).copied().flatten()
    }

    // Touches a run of columns of a row, both ends included.
    pub fn touch_run(&mut self, row: usize, first: usize, last: usize)
        ensures { Touching self.old self.new (in_run row first last) }
    {
        if row < self.size.rows {
            self.ranges[row] = touched(self.size.columns, self.ranges[row], first, last);
        }
    }

    // Touches the spots of a rectangle.
    pub fn touch_rectangle(&mut self, area: Rectangle)
        ensures { Touching self.old self.new (in_rectangle area.top area.left area.height area.width) }
    {
        if area.width > 0 {
            let last = area.left.saturating_add(area.width - 1);
            let bottom = area.top.saturating_add(area.height).min(self.size.rows);
            // a row goes by its number, as all that is asked of it
            for row in area.top..bottom {
                self.touch_run(row, area.left, last);
            }
        }
    }
}
