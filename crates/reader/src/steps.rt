// What the reader makes of a byte, by where it stands.
ghost use Rattle.std.specs.Prelude.{◌≡◌, cond, Some, None};
ghost use Rattle.reader.specs.Steps.{gathers, completes, in_sequence, begin_character, continue_character, takes_digit, with_digit, attribute_of, continue_sequence, begin_sequence};

use crate::states::{Action, Gathered, Sequence, State, Step};
use cells::attributes::{BLINKING, BOLD, REVERSE, UNDERLINED};

// A byte that does not fit is dropped, with all that was gathered.
const DROPPED: Step = (State::Plain, None);

// The most that can be gathered before the last byte of a character.
const MOST_BITS: u32 = 0x43FF;

// Between characters and sequences again, with what was completed.
fn complete(action: Action) -> Step
    ensures { result ≡ completes action }
{
    (State::Plain, Some(action))
}

// Waits for the bytes of a character that are to come; the parts of the record one by one, so that the first bytes stay a table.
fn gather(bits: u32, left: u8, low: u8, high: u8) -> Step
    ensures { result ≡ gathers bits left low high }
{
    let gathered = Gathered {
        bits,
        left,
        low,
        high,
    };
    (State::InCharacter(gathered), None)
}

// The first byte of a character.
pub fn begin_character(byte: u8) -> Step
    ensures { result ≡ begin_character byte }
{
    match byte {
        0x00..=0x7F => complete(Action::Show(u32::from(byte))),
        0xC2..=0xDF => gather(u32::from(byte - 0xC0), 1, 0x80, 0xBF),
        0xE0 => gather(0, 2, 0xA0, 0xBF),
        0xED => gather(0xD, 2, 0x80, 0x9F),
        0xE1..=0xEF => gather(u32::from(byte - 0xE0), 2, 0x80, 0xBF),
        0xF0 => gather(0, 3, 0x90, 0xBF),
        0xF1..=0xF3 => gather(u32::from(byte - 0xF0), 3, 0x80, 0xBF),
        0xF4 => gather(4, 3, 0x80, 0x8F),
        _ => DROPPED,
    }
}

// A further byte of a character.
pub fn continue_character(gathered: Gathered, byte: u8) -> Step
    ensures { result ≡ continue_character gathered byte }
{
    let fits = (gathered.low..=gathered.high).contains(&byte) && (0x80..=0xBF).contains(&byte);
    if !fits || gathered.bits > MOST_BITS {
        return DROPPED;
    }
    let bits = gathered.bits * 64 + u32::from(byte - 0x80);
    if gathered.left <= 1 {
        complete(Action::Show(bits))
    } else {
        gather(bits, gathered.left - 1, 0x80, 0xBF)
    }
}

// The sequence goes on.
fn go_on(sequence: Sequence) -> Step
    ensures { result ≡ in_sequence sequence }
{
    (State::InSequence(sequence), None)
}

// A number with a digit more, none of a number that has four already.
fn further_digit(n: u16, byte: u8) -> Option<u16>
    ensures { result ≡ cond (takes_digit n byte) (Some (with_digit n byte)) None }
{
    match byte {
        b'0'..=b'9' if n <= 999 => Some(n * 10 + u16::from(byte - b'0')),
        _ => None,
    }
}

// The attribute that a digit stands for.
fn attribute_of(byte: u8) -> Option<u8>
    ensures { result ≡ attribute_of byte }
{
    match byte {
        b'1' => Some(BOLD),
        b'4' => Some(UNDERLINED),
        b'5' => Some(BLINKING),
        b'7' => Some(REVERSE),
        _ => None,
    }
}

// A further byte of a sequence.
pub fn continue_sequence(sequence: Sequence, byte: u8) -> Step
    ensures { result ≡ continue_sequence sequence byte }
{
    match (sequence, byte) {
        (Sequence::Escape, b'[') => go_on(Sequence::Opened),
        (Sequence::Opened, b'0') => go_on(Sequence::Attributes(0)),
        (Sequence::Opened, b'1'..=b'9') => go_on(Sequence::First(u16::from(byte - b'0'))),
        (Sequence::First(n), b';') => go_on(Sequence::Parted(n)),
        (Sequence::First(n), b'C') => complete(Action::Right(n)),
        (Sequence::First(n), _) => further_digit(n, byte).map_or(
            DROPPED,
            |more| go_on(Sequence::First(more)),
        ),
        (Sequence::Parted(row), b'1'..=b'9') => go_on(Sequence::Second(
            row,
            u16::from(byte - b'0'),
        )),
        (Sequence::Second(row, n), b'H') => complete(Action::To(row, n)),
        (Sequence::Second(row, n), _) => further_digit(n, byte).map_or(
            DROPPED,
            |more| go_on(Sequence::Second(row, more)),
        ),
        (Sequence::Attributes(set), b';') if set < REVERSE => go_on(Sequence::More(set)),
        (Sequence::Attributes(set), b'm') => complete(Action::SetPen(set)),
        (Sequence::More(set), _) => match attribute_of(byte) {
            Some(bit) if set < bit => go_on(Sequence::Attributes(set + bit)),
            _ => DROPPED,
        },
        _ => DROPPED,
    }
}

// The byte that begins a sequence.
pub const ESC: u8 = 0x1B;

// ESC begins a sequence.
pub fn begin_sequence() -> Step
    ensures { result ≡ begin_sequence }
{
    go_on(Sequence::Escape)
}
