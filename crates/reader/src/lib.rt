// Reads the bytes that are sent to a terminal of ECMA-48: UTF-8 characters, and three sequences for the cursor and the pen.
#![tactic(auto)]

pub mod states;
pub mod steps;
