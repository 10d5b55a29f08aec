// The sizes that a terminal can have over a grid in memory.
ghost use Rattle.std.specs.Prelude.{◌≡◌};
ghost use Rattle.faults.specs.Refusals.{fault_of};
ghost use Rattle.terminal.specs.Sizes.{within, size_refusal};

use faults::Fault;
use places::Size;

// The most rows and columns: no `Size` itself, since a size is what is tested by them.
#[derive(Clone, Copy)]
pub struct Limits {
    pub rows: usize,
    pub columns: usize,
}

impl Limits {
    // Are there a row and a column at least, and no more than these?
    pub fn allow(self, size: Size) -> bool
        ensures { result ≡ within self.rows self.columns size.rows size.columns }
    {
        (1..=self.rows).contains(&size.rows) && (1..=self.columns).contains(&size.columns)
    }

    // Is a size refused, over memory of that many cells?
    pub fn check(self, size: Size, cells: usize) -> Result<(), Fault>
        ensures { fault_of result ≡ size_refusal self.rows self.columns size.rows size.columns cells }
    {
        if !self.allow(size) {
            return Err(Fault::BadSize);
        }
        if !size.fits(cells) {
            return Err(Fault::MemoryLength);
        }
        Ok(())
    }
}
