// The order of the shown panels, from bottom to top.
#![tactic(auto)]

pub mod calls;
pub mod records;
