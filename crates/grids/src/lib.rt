// Grids of cells over memory that the caller holds, and the put rule.
#![tactic(auto)]

pub mod grids;
mod putting;
