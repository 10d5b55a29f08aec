// The touched range of each row of a screen.
#![tactic(auto)]

pub mod records;
pub mod rows;
