// The table of windows over window memory.
#![tactic(auto)]

pub mod calls;
mod drawing;
pub mod records;
mod texts;
mod window_areas;
pub mod writing;
