// What is kept of the panels of a screen.
ghost use Rattle.std.specs.Prelude.{◌≡◌, length};

use crate::small::SmallPanel;
use orders::records::{MOST_PANELS, Order};

// The panels by their numbers, none for a number that was never given, and the order of the shown ones.
// An array, since panels are copied as a whole and take no memory of their own.
#[derive(Clone, Copy)]
pub struct Panels {
    pub(crate) given: [Option<SmallPanel>; MOST_PANELS],
    pub(crate) order: Order,
    ghost sixteen: { length given ≡ 16 },
}
