// The screen record: windows, panels, brush and the cursor's place, with the touched range of each row.
#![tactic(auto)]

pub mod board;
pub mod boxes;
pub mod brushes;
pub mod panel_calls;
pub mod questions;
pub mod records;
pub mod set_up;
pub mod window_calls;
