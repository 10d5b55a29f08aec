// Where the rows of a list go besides standard output: nowhere, or onto a terminal.
use crate::rows::laid_line;
use cells::rows::mend;
use faults::Fault;
use showing::show_row;
use std::alloc::{AllocError, Global};
use terminal::terminals::Terminal;

// What takes the rows.
pub trait Board {
    // Shows a text, cut at the width, in a row; answers the refusal that it met, if any.
    fn show(
        &mut self,
        heap: Global,
        row: usize,
        text: &[char],
        width: usize,
    ) -> Result<Option<Fault>, AllocError>;
}

// No terminal: nothing is shown and nothing refused.
#[derive(Drop)]
pub struct NoBoard;

impl Board for NoBoard {
    fn show(
        &mut self,
        _heap: Global,
        _row: usize,
        _text: &[char],
        _width: usize,
    ) -> Result<Option<Fault>, AllocError> {
        Ok(None)
    }
}

// A terminal of any kind.
#[derive(Drop)]
pub struct TerminalBoard<'a, T> {
    pub terminal: &'a mut T,
}

impl<'a, T: Terminal> Board for TerminalBoard<'a, T> {
    // Lays the text into a row as wide as the width or the terminal, whichever is less, mends it and shows it.
    fn show(
        &mut self,
        heap: Global,
        row: usize,
        text: &[char],
        width: usize,
    ) -> Result<Option<Fault>, AllocError> {
        let width = width.min(self.terminal.columns());
        let mut line = laid_line::<T::Cell>(heap, text, width)?;
        mend(line.row.as_mut_slice());
        Ok(show_row(self.terminal, row, line.row.as_slice()).err())
    }
}
