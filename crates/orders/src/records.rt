// What is kept of the order.
ghost use Rattle.std.specs.Prelude.{◌≡◌, ℕ, ◌≤◌, length, take, if◌then◌else◌, nat_lt};
ghost use Rattle.orders.specs.Orders.{times};

// The most panels that a screen has; their numbers are below it.
pub const MOST_PANELS: usize = 16;

// The numbers of the shown panels, and how many there are: each below 16, none twice.
// An array and a length, since an order is copied as a whole and takes no memory of its own.
#[derive(Clone, Copy)]
pub struct Order {
    pub(crate) numbers: [usize; MOST_PANELS],
    pub(crate) shown: usize,
    ghost sixteen: { length numbers ≡ 16 },
    ghost few: { shown ≤ 16 },
    ghost once: { (number : ℕ) → times number (take shown numbers) ≤ (if nat_lt number 16 then 1 else 0) },
}
