// Where the reader stands between two bytes, and what a byte completes.

// What was read of a sequence.
#[derive(Clone, Copy, PartialEq, Eq, Debug)]
pub enum Sequence {
    // ESC
    Escape,
    // ESC [
    Opened,
    // ESC [ and a number
    First(u16),
    // ESC [ row ;
    Parted(u16),
    // ESC [ row ; and a number
    Second(u16, u16),
    // ESC [ 0 and the attributes so far
    Attributes(u8),
    // the same, and a semicolon
    More(u8),
}

// What was read of a character: its bits so far, how many bytes are to come, and between which bounds the next one lies.
#[derive(Clone, Copy, PartialEq, Eq, Debug)]
pub struct Gathered {
    pub bits: u32,
    pub left: u8,
    pub low: u8,
    pub high: u8,
}

// Where the reader stands.
#[derive(Clone, Copy, PartialEq, Eq, Debug)]
pub enum State {
    // between characters and sequences
    Plain,
    InSequence(Sequence),
    InCharacter(Gathered),
}

// What a byte may complete.
#[derive(Clone, Copy, PartialEq, Eq, Debug)]
pub enum Action {
    // a character
    Show(u32),
    // columns to the right
    Right(u16),
    // a row and a column: numbers as they stand in the sequence, counted from 1, and no spot
    To(u16, u16),
    // attributes of the characters to come
    SetPen(u8),
}

// What a byte leads to: where the reader stands then, and what the byte completed, if anything.
pub type Step = (State, Option<Action>);
