// Attributes of a character: a sum of the four below, so at most 15.
ghost use Rattle.std.specs.Prelude.{◌≡◌};
ghost use Rattle.cells.specs.Attributes.{are_attributes};

pub const BOLD: u8 = 1;

pub const UNDERLINED: u8 = 2;

pub const BLINKING: u8 = 4;

pub const REVERSE: u8 = 8;

// Is the number such a sum?
pub fn are_attributes(number: u8) -> bool
    ensures { result ≡ are_attributes number }
{
    number <= BOLD + UNDERLINED + BLINKING + REVERSE
}
