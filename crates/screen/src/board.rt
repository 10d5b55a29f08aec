// The parts of a screen record.
use crate::brushes::Brush;
use panels::records::Panels;
use places::Spot;
use touching::records::Touched;
use windows::records::Windows;

// The touched rows, which know the screen's size too, the windows, the panels, the brush and the cursor's place.
#[derive(Clone, Copy)]
pub struct Board {
    pub(crate) touched: Touched,
    pub(crate) windows: Windows,
    pub(crate) panels: Panels,
    pub(crate) brush: Brush,
    pub(crate) place: Spot,
}
