// Bytes to be sent at once.
ghost use Rattle.std.specs.Prelude.{◌≤◌};

// The most bytes that one operation sends.
pub const LONGEST: usize = 15;

// At most 15 bytes: plain fixed memory with its length, since codes are copied and no heap is used.
#[derive(Clone, Copy)]
pub struct Code {
    pub(crate) bytes: [u8; LONGEST],
    pub(crate) length: usize,
    ghost short: { length ≤ 15 },
}
