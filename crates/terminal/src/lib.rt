// What a terminal means, and the interface that every terminal keeps.
#![tactic(auto)]

pub mod refusals;
pub mod sizes;
pub mod spots;
pub mod terminals;
