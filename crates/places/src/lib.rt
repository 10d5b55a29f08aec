// Spots, sizes and rectangles: where something lies on a grid or a screen, and how large it is. Rows and columns count from 0.
#![tactic(auto)]

ghost use Rattle.std.specs.Prelude.{◌≡◌};
ghost use Rattle.places.specs.Places.{holds, lies_in, fits, over};

// A row and a column.
#[derive(Clone, Copy, PartialEq, Eq, Debug)]
pub struct Spot {
    pub row: usize,
    pub column: usize,
}

// How many rows and how many columns.
#[derive(Clone, Copy, PartialEq, Eq, Debug)]
pub struct Size {
    pub rows: usize,
    pub columns: usize,
}

// A rectangle: its first row and column, and how many of them it has.
#[derive(Clone, Copy, PartialEq, Eq, Debug)]
pub struct Rectangle {
    pub top: usize,
    pub left: usize,
    pub height: usize,
    pub width: usize,
}

impl Size {
    // No rows and no columns.
    pub const NONE: Size = Size {
        rows: 0,
        columns: 0,
    };

    // Does a spot lie in these rows and columns?
    pub fn holds(self, spot: Spot) -> bool
        ensures { result ≡ holds self spot }
    {
        spot.row < self.rows && spot.column < self.columns
    }

    // Has a memory of so many cells just one for each spot?
    pub fn fits(self, cells: usize) -> bool
        ensures { result ≡ fits self cells }
    {
        self.rows.checked_mul(self.columns) == Some(cells)
    }

    // This size over a memory of so many cells, none if those are not just its own.
    pub fn over(self, cells: usize) -> Size
        ensures { result ≡ over self cells }
    {
        if self.fits(cells) { self } else { Size::NONE }
    }
}

impl Rectangle {
    // Does it lie inside a size? An empty one may lie at its edge.
    pub fn lies_in(self, size: Size) -> bool
        ensures { result ≡ lies_in self size }
    {
        self.height <= size.rows
            && self.top <= size.rows - self.height
            && self.width <= size.columns
            && self.left <= size.columns - self.width
    }
}
