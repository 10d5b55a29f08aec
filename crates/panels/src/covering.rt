// Which shown panels cover a spot.
ghost use Rattle.std.specs.Prelude.{◌≡◌, ℕ, ◌&&◌, take, drop, if◌then◌else◌, count_by};
ghost use Rattle.orders.specs.Orders.{times};
ghost use Rattle.panels.specs.Places.{covers};
ghost use Rattle.panels.specs.Decks.{deck_of, panel_of, is_shown};

use crate::panel::PanelList;
use crate::records::Panels;
use places::Spot;

impl Panels {
    // How many shown panels cover a spot. Each of them stands once at the front of the list; its rest is as it was.
    pub fn cover(&self, at: Spot, list: &mut PanelList) -> usize
        ensures count { result ≡ count_by (λ n. covers (panel_of (deck_of self.now) n) at.row at.column) (deck_of self.now).order }
        ensures each { (n : ℕ) → times n (take result list.new) ≡ (if is_shown (deck_of self.now) n && covers (panel_of (deck_of self.now) n) at.row at.column then 1 else 0) }
        ensures rest { drop result list.new ≡ drop result list.old }
    {
        // the list is the caller's memory, so how much of it is filled is counted
        let mut count = 0;
        for number in self.order.numbers() {
            if self.covers(*number, at) {
                list[count] = *number;
                count += 1;
            }
        }
        count
    }
}
