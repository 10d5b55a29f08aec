// A pane: a rectangle of any terminal below, and itself a terminal.
#![tactic(auto)]

pub mod panes;
pub mod rectangles;
