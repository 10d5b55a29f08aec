// Devices: terminals over a grid and a line in memory. They differ in their faces, which say what is shown and which bytes are sent.
#![tactic(auto)]

pub mod device;
pub mod faces;
