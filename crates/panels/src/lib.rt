// Panels: rectangles of windows that lie on a screen one above the other.
#![tactic(auto)]

pub mod composing;
pub mod covering;
pub mod panel;
pub mod records;
pub mod shown;
mod small;
pub mod touch_calls;
