// Panels that are small enough to lie on a screen, and what they show there.
ghost use Rattle.std.specs.Prelude.{◌≡◌, ◌<◌, true, Some};
ghost use Rattle.areas.specs.Addresses.{ends_below, in_span};
ghost use Rattle.touching.specs.TouchedRows.{Touching};
ghost use Rattle.panels.specs.Places.{shown_address, is_small, shows, shows_row};

use crate::panel::Panel;
use areas::{Area, MOST_CELLS};
use places::Spot;
use touching::records::{MOST_COLUMNS, MOST_ROWS, Touched};

// A panel that is small enough to lie on a screen.
#[derive(Clone, Copy)]
pub(crate) struct SmallPanel {
    pub(crate) panel: Panel,
    ghost small: { is_small (Some panel) ≡ true },
}

// Does a view end in the first 65,535 cells, and does no row of it reach into the next?
fn is_view(view: Area) -> bool
    ensures { result ≡ ends_below 65535 view }
{
    if view.height == 0 || view.width == 0 || view.width > view.pitch {
        return false;
    }
    let last = view
        .base
        .saturating_add((view.height - 1).saturating_mul(view.pitch));
    last.saturating_add(view.width) <= MOST_CELLS
}

// Is a panel small enough to lie on a screen?
pub(crate) fn is_small(panel: Panel) -> bool
    ensures { result ≡ is_small (Some panel) }
{
    is_view(panel.view)
        && panel.at.row.saturating_add(panel.view.height) <= MOST_ROWS
        && panel.at.column.saturating_add(panel.view.width) <= MOST_COLUMNS
}

impl SmallPanel {
    // The address of the cell that it shows at a spot, none if it does not cover that.
    pub(crate) fn address(&self, at: Spot) -> Option<usize>
        ensures { result ≡ shown_address (Some self.now.panel) at.row at.column }
    {
        let first = &self.panel.at;
        let view = &self.panel.view;
        // each side is read only once the spot has passed the one before: `top` and `cover` ask this of every shown panel
        // (by `checked_sub`, which is plainer, a row is composed a sixth slower)
        if at.row < first.row || view.height <= at.row - first.row {
            return None;
        }
        if at.column < first.column || view.width <= at.column - first.column {
            return None;
        }
        // as in a window: that the sum fits, each type knows of its own area
        Some(view.base + (at.row - first.row) * view.pitch + (at.column - first.column))
    }

    // Touches what a row of its view shows of the addresses: the first and how many, since their end may be past all numbers.
    fn touch_row(self, touched: &mut Touched, row: usize, from: usize, count: usize)
        requires { row < self.panel.view.height }
        ensures { Touching touched.old touched.new (shows_row self.panel from count row) }
    {
        let Panel { view, at, .. } = self.panel;
        let start = view.base + row * view.pitch;
        let low = start.max(from);
        let high = (start + view.width).min(from.saturating_add(count));
        if low < high {
            let first = at.column + (low - start);
            let last = at.column + (high - 1 - start);
            touched.touch_run(at.row + row, first, last);
        }
    }

    // Touches what it shows of the addresses.
    pub(crate) fn touch(self, touched: &mut Touched, from: usize, count: usize)
        ensures { Touching touched.old touched.new (shows (in_span from count) (Some self.panel)) }
    {
        // a row is where its number puts it in memory
        for row in 0..self.panel.view.height {
            self.touch_row(touched, row, from, count);
        }
    }
}
