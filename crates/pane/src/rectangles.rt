// The rectangle that a pane is made on.
pub use places::Rectangle;
