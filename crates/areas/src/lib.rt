// Areas: rectangles of cells in a memory that holds the rows of larger ones one after another.
#![tactic(auto)]

// The most cells that a memory has whose areas are drawn and shown.
pub const MOST_CELLS: usize = 65535;

// The first cell's address, how far a row's first cell is from that of the row before, and how many rows and columns there are.
// An area of a larger one keeps its pitch.
#[derive(Clone, Copy, PartialEq, Eq, Debug)]
pub struct Area {
    pub base: usize,
    pub pitch: usize,
    pub height: usize,
    pub width: usize,
}
