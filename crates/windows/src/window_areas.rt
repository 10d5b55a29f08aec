// The area of a window, or a part of one, to be drawn into.
ghost use Rattle.std.specs.Prelude.{◌≡◌, ◌+◌, ◌-◌, ◌*◌, ◌<◌, ◌≤◌, true, not, [], ◌∷◌, IfOk};
ghost use Rattle.faults.specs.Refusals.{first, fault_of};
ghost use Rattle.faults.specs.declared.Fault.TheVariants.{Outside};
ghost use Rattle.places.specs.Places.{size, holds};
ghost use Rattle.areas.specs.Addresses.{area, address, row_part, ends_below};
ghost use Rattle.windows.specs.Cells.{end_rows};

use areas::Area;
use faults::Fault;
use places::{Size, Spot};

// An area that ends in the first 65,535 cells, as window memory does, so that each of its addresses is a number.
#[derive(Clone, Copy)]
pub(crate) struct WindowArea {
    pub(crate) area: Area,
    ghost inside: { ends_below 65535 area ≡ true },
}

impl WindowArea {
    // Its rows and columns.
    pub(crate) fn size(self) -> Size
        ensures { result ≡ size self.area.height self.area.width }
    {
        // an area names its sides as a rectangle does, a size as a grid does
        Size {
            rows: self.area.height,
            columns: self.area.width,
        }
    }

    // The address of a spot of it.
    pub(crate) fn address(self, at: Spot) -> usize
        requires { holds (size self.area.height self.area.width) at ≡ true }
        ensures { result ≡ address self.area at.row at.column }
    {
        // as for a panel's view: that the sum fits, each type knows of its own area
        self.area.base + at.row * self.area.pitch + at.column
    }

    // The address of a row of it.
    pub(crate) fn row(self, row: usize) -> usize
        requires { row < self.area.height }
        ensures { result ≡ self.area.base + row * self.area.pitch }
    {
        self.area.base + row * self.area.pitch
    }

    // A column of it.
    pub(crate) fn column(self, column: usize) -> WindowArea
        requires { column < self.area.width }
        ensures { result.area ≡ area (self.area.base + column) self.area.pitch self.area.height 1 }
    {
        WindowArea {
            area: Area {
                base: self.area.base + column,
                width: 1,
                ..self.area
            },
        }
    }

    // Its first and its last row.
    pub(crate) fn ends(self) -> WindowArea
        requires { 2 ≤ self.area.height }
        ensures { result.area ≡ end_rows self.area }
    {
        WindowArea {
            area: Area {
                pitch: (self.area.height - 1) * self.area.pitch,
                height: 2,
                ..self.area
            },
        }
    }

    // How many columns its row has from a spot on.
    pub(crate) fn rest(self, at: Spot) -> Result<usize, Fault>
        ensures refusal { fault_of result ≡ first ((not (holds (size self.area.height self.area.width) at), Outside) ∷ []) }
        ensures told { IfOk result (λ n. n ≡ self.area.width - at.column) }
    {
        if !self.size().holds(at) {
            return Err(Fault::Outside);
        }
        Ok(self.area.width - at.column)
    }

    // A run of cells of one of its rows, from a spot on.
    pub(crate) fn run(self, at: Spot, width: usize) -> Area
        requires { holds (size self.area.height self.area.width) at ≡ true }
        ensures { result ≡ row_part self.area at.row at.column width }
    {
        Area {
            base: self.address(at),
            height: 1,
            width,
            ..self.area
        }
    }
}
