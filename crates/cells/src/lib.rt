// What a cell is: house widths, what a cell kind has to tell, and rows of whole characters.
#![tactic(auto)]

pub mod attributes;
pub mod kinds;
pub mod rows;
pub mod widths;
