// The bytes that a terminal of ECMA-48 sends.
#![tactic(auto)]

pub mod codes;
pub mod writer;
