// The refusals of the library: each call that refuses answers one of these, with its number and layer.
#![tactic(auto)]

ghost use Rattle.std.specs.Prelude.{◌≡◌, Some, ◌==◌};
ghost use Rattle.faults.specs.Faults.{number_of, layer_of};
ghost use Rattle.faults.specs.Words.{layer_word, refusal_text};

use std::error::Error;
use std::fmt;

// Why a call was refused, with the number by which scripts and printed answers name it.
#[derive(Debug, Clone, Copy, PartialEq, Eq)]
pub enum Fault {
    // rows, columns or a side outside their limits
    BadSize = 1,
    // as many windows as a screen can have
    TooManyWindows = 2,
    // window memory of too many cells to record, or with too few left
    CellCount = 3,
    // no window has that number
    NoWindow = 4,
    // a spot or a rectangle that does not lie inside
    Outside = 5,
    // no panel has that number
    NoPanel = 6,
    // the panel is shown already
    PanelShown = 7,
    // a spot, a row or a panel that does not lie on the screen
    OffScreen = 8,
    // the panel is hidden
    PanelHidden = 9,
    // a character that takes no column
    NoWidth = 10,
    // a text of too many characters, or wider than the rest of the row
    TooLong = 11,
    // attributes above 15
    BadAttributes = 12,
    // a side too short for a box
    TooSmallForBox = 13,
    // sizes that should be equal and above 0
    SizesDiffer = 14,
    // memory of another length than recorded
    MemoryLength = 15,
    // a spot that is not on the terminal's grid
    OffGrid = 21,
    // less line room than an operation may need
    LineFull = 22,
    // no drawable single, or no halves that belong together
    NotDrawable = 23,
    // the terminal's cursor is at no known spot
    CursorUnknown = 24,
}

// Which part of the library refuses.
#[derive(Clone, Copy, PartialEq, Eq, Debug)]
pub enum FaultLayer {
    Screen,
    Terminal,
}

impl Fault {
    // The number by which scripts and printed answers name the refusal.
    pub fn number(self) -> u8
        ensures { result ≡ number_of self }
    {
        self as u8
    }

    // Is it the same refusal? That is what `==` answers too: two refusals are equal if their numbers are.
    pub fn same(self, other: Fault) -> bool
        ensures { result ≡ (number_of self == number_of other) }
    {
        self == other
    }

    // Whether the screen or the terminal below it refuses.
    pub fn layer(self) -> FaultLayer
        ensures { result ≡ layer_of self }
    {
        match self {
            Fault::OffGrid | Fault::LineFull | Fault::NotDrawable | Fault::CursorUnknown =>
                FaultLayer::Terminal,
            _ => FaultLayer::Screen,
        }
    }
}

impl fmt::Display for FaultLayer {
    ghost output = { λ l. Some (layer_word l) };

    fn fmt<W: fmt::Write>(&self, f: &mut fmt::Formatter<W>) -> fmt::Result {
        f.write_str(match self {
            FaultLayer::Screen => "screen",
            FaultLayer::Terminal => "terminal",
        })
    }
}

impl fmt::Display for Fault {
    ghost output = { λ f. Some (refusal_text f) };

    fn fmt<W: fmt::Write>(&self, f: &mut fmt::Formatter<W>) -> fmt::Result {
        let number = self.number();
        let layer = self.layer();
        write!(f, "refused {number} {layer}")
    }
}

impl Error for Fault {}
