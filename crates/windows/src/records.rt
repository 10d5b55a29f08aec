// What is kept of the windows of a screen.
ghost use Rattle.std.specs.Prelude.{◌≡◌, ℕ, ◌<◌, ◌≤◌, true, length, slice_index_or};
ghost use Rattle.areas.specs.Addresses.{area, ends_below};

use areas::Area;

// The most cells that window memory has.
pub use areas::MOST_CELLS;

// The most windows that a screen has.
pub const MOST_WINDOWS: usize = 16;

// The areas of the windows, how many there are, how many cells of window memory are taken, and how many it has.
#[derive(Clone, Copy)]
pub struct Windows {
    // an array and how many of it are in use, since the record is plain memory that is copied, and the library has no heap
    pub(crate) areas: [Area; MOST_WINDOWS],
    pub(crate) count: usize,
    pub(crate) taken: usize,
    pub(crate) memory: usize,
    ghost sixteen: { length areas ≡ 16 },
    ghost few: { count ≤ 16 },
    ghost enough: { taken ≤ memory },
    ghost short: { memory ≤ 65535 },
    ghost inside: { (window : ℕ) → window < count → ends_below taken (slice_index_or areas window (area 0 0 0 0)) ≡ true },
}
