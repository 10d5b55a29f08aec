// A panel: a view of a window, and the spot of the screen where its first cell lies.
use areas::Area;
use orders::records::MOST_PANELS;
use places::Spot;

// A list with a place for the number of every panel: an array, since it is the caller's memory.
pub type PanelList = [usize; MOST_PANELS];

#[derive(Clone, Copy)]
pub struct Panel {
    pub window: usize,
    // the part of the window memory that is seen
    pub view: Area,
    pub at: Spot,
}
