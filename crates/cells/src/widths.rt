// House widths: how many columns a character takes.
ghost use Rattle.std.specs.Prelude.{◌≡◌};
ghost use Rattle.cells.specs.Widths.{width_of, columns_of};

// The columns that a character takes.
#[derive(Clone, Copy, PartialEq, Eq, Debug)]
pub enum Width {
    Zero = 0,
    One = 1,
    Two = 2,
}

impl Width {
    // The width of a character by its number; a number that is no character takes no column.
    pub fn of(character: u32) -> Width
        ensures { result ≡ width_of character }
    {
        match character {
            0x20..=0x7E | 0xAE..=0x2FF => Width::One,
            0x4E00..=0x9FFF | 0xAC00..=0xD7A3 | 0xFF01..=0xFF60 => Width::Two,
            _ => Width::Zero,
        }
    }

    // The width as a number of columns.
    pub fn columns(self) -> u8
        ensures { result ≡ columns_of self }
    {
        self as u8
    }
}
