// Panels come into the order, leave it and change their places in it.
ghost use Rattle.std.specs.Prelude.{◌≡◌, ◌==◌, [], length};
ghost use Rattle.std.specs.List.{position, slice_get};
ghost use Rattle.orders.specs.Orders.{has, without, shown_on_top, raised, lowered};
ghost use Rattle.orders.specs.Kept.{order_of};

use crate::records::{MOST_PANELS, Order};

impl Order {
    // No panel is shown.
    pub fn new() -> Order
        ensures { order_of result ≡ [] }
    {
        Order {
            numbers: [0; MOST_PANELS],
            shown: 0,
        }
    }

    // The numbers of the shown panels, from bottom to top.
    pub fn numbers(&self) -> &[usize]
        ensures { result.now ≡ order_of self.now }
    {
        &self.numbers[..self.shown]
    }

    // Where a number is in the order.
    fn place(&self, number: usize) -> Option<usize>
        ensures { result ≡ position (λ n. n == number) (order_of self.now) }
    {
        self.numbers().iter().position(|shown| *shown == number)
    }

    // Is a panel shown?
    pub fn contains(&self, number: usize) -> bool
        ensures { result ≡ has number (order_of self.now) }
    {
        self.numbers().contains(&number)
    }

    // How many panels are shown.
    pub fn count(&self) -> usize
        ensures { result ≡ length (order_of self.now) }
    {
        self.shown // none of them twice
    }

    // The number at a place of the order, counted from the bottom; none past the top.
    pub fn number(&self, place: usize) -> Option<usize>
        ensures { result ≡ slice_get (order_of self.now) place }
    {
        self.numbers().get(place).copied()
    }

    // Puts a panel on top; one that is shown stays where it is, and numbers from 16 on are no panels.
    pub fn show(&mut self, number: usize)
        ensures { order_of self.new ≡ shown_on_top number (order_of self.old) }
    {
        if number < MOST_PANELS && !self.contains(number) {
            self.numbers[self.shown] = number;
            self.shown += 1;
        }
    }

    // Takes a panel out: it comes to the top, and no panel is shown there any more.
    pub fn hide(&mut self, number: usize)
        ensures { order_of self.new ≡ without number (order_of self.old) }
    {
        if self.contains(number) {
            self.raise(number);
            self.shown -= 1;
        }
    }

    // Brings a shown panel to the top.
    pub fn raise(&mut self, number: usize)
        ensures { order_of self.new ≡ raised number (order_of self.old) }
    {
        if let Some(place) = self.place(number) {
            self.numbers[place..self.shown].rotate_left(1);
        }
    }

    // Brings a shown panel to the bottom.
    pub fn lower(&mut self, number: usize)
        ensures { order_of self.new ≡ lowered number (order_of self.old) }
    {
        if let Some(place) = self.place(number) {
            self.numbers[0..place + 1].rotate_right(1);
        }
    }
}
