// Panels are given, shown and moved.
ghost use Rattle.std.specs.Prelude.{◌≡◌};
ghost use Rattle.orders.specs.Orders.{without, shown_on_top, raised, lowered};
ghost use Rattle.panels.specs.Decks.{deck_of, no_panels, panel_of, is_shown, with_panel, with_place, with_order};

use crate::panel::Panel;
use crate::records::Panels;
use crate::small::{SmallPanel, is_small};
use orders::records::{MOST_PANELS, Order};
use places::Spot;

impl Panels {
    // No panels.
    pub fn new() -> Panels
        ensures { deck_of result ≡ no_panels }
    {
        Panels {
            given: [None; MOST_PANELS],
            order: Order::new(),
        }
    }

    // Gives a number a panel, if it is small enough to lie on a screen.
    pub fn give(&mut self, number: usize, panel: Panel)
        ensures { deck_of self.new ≡ with_panel (deck_of self.old) number panel }
    {
        if number < MOST_PANELS && is_small(panel) {
            self.given[number] = Some(SmallPanel { panel });
        }
    }

    // Gives a panel another place, if it fits there on a screen.
    pub fn relocate(&mut self, number: usize, to: Spot)
        ensures { deck_of self.new ≡ with_place (deck_of self.old) number (panel_of (deck_of self.old) number) to.row to.column }
    {
        if let Some(panel) = self.panel(number) {
            self.give(number, Panel { at: to, ..panel });
        }
    }

    // Is a panel shown?
    pub fn is_shown(&self, number: usize) -> bool
        ensures { result ≡ is_shown (deck_of self.now) number }
    {
        self.order.contains(number)
    }

    // Puts a panel on top.
    pub fn show(&mut self, number: usize)
        ensures { deck_of self.new ≡ with_order (deck_of self.old) (shown_on_top number (deck_of self.old).order) }
    {
        self.order.show(number);
    }

    // Takes a panel out of the order.
    pub fn hide(&mut self, number: usize)
        ensures { deck_of self.new ≡ with_order (deck_of self.old) (without number (deck_of self.old).order) }
    {
        self.order.hide(number);
    }

    // Brings a shown panel to the top.
    pub fn raise(&mut self, number: usize)
        ensures { deck_of self.new ≡ with_order (deck_of self.old) (raised number (deck_of self.old).order) }
    {
        self.order.raise(number);
    }

    // Brings a shown panel to the bottom.
    pub fn lower(&mut self, number: usize)
        ensures { deck_of self.new ≡ with_order (deck_of self.old) (lowered number (deck_of self.old).order) }
    {
        self.order.lower(number);
    }
}
