// Writes the code of each operation.
ghost use Rattle.std.specs.Prelude.{◌≡◌, ◌+◌, ◌*◌, ◌/◌, ◌%◌, ◌<◌, ◌≤◌, [], ◌∷◌, ◌++◌, length, drop, Some, MatchOption, count_ones};
ghost use Rattle.std.proofs.Math.Utf8.{encode};
ghost use Rattle.ecma_bytes.specs.Bytes.{number, right_bytes, to_bytes, move_bytes, attribute_bytes, change_bytes, pen_bytes, put_bytes};
ghost use Rattle.ecma_bytes.specs.RoundTrip.{ReadsAsMove, ReadsAsCharacter, IsCharacter};
ghost use Rattle.ecma_bytes.specs.Codes.{code_bytes};

use crate::codes::{Code, LONGEST};
use cells::attributes::{BLINKING, BOLD, REVERSE, UNDERLINED};
use reader::steps::ESC;
use terminal::spots::Spot;

// The digit for each attribute.
const ATTRIBUTE_DIGITS: [(u8, u8); 4] = [
    (BOLD, b'1'),
    (UNDERLINED, b'4'),
    (BLINKING, b'5'),
    (REVERSE, b'7'),
];

// Each function says which bytes it adds to a code and how much room it needs: both differ from one to the next.
impl Code {
    // No bytes yet.
    fn new() -> Code
        ensures bytes { code_bytes result ≡ [] }
        ensures length { result.length ≡ 0 }
    {
        Code {
            bytes: [0; LONGEST],
            length: 0,
        }
    }

    // One byte more.
    fn push(&mut self, byte: u8)
        requires { self.old.length < 15 }
        ensures bytes { code_bytes self.new ≡ code_bytes self.old ++ (byte ∷ []) }
        ensures length { self.new.length ≡ self.old.length + 1 }
    {
        self.bytes[self.length] = byte;
        self.length += 1;
    }

    // More bytes.
    fn push_all(&mut self, bytes: &[u8])
        requires { self.old.length + length bytes.now ≤ 15 }
        ensures bytes { code_bytes self.new ≡ code_bytes self.old ++ bytes.now }
        ensures length { self.new.length ≡ self.old.length + length bytes.now }
    {
        let end = self.length + bytes.len();
        self.bytes[self.length..end].copy_from_slice(bytes);
        self.length = end;
    }

    // A digit more.
    fn push_digit(&mut self, digit: u32)
        requires room { self.old.length < 15 }
        requires digit { digit ≤ 9 }
        ensures bytes { code_bytes self.new ≡ code_bytes self.old ++ ((48 + digit) ∷ []) }
        ensures length { self.new.length ≡ self.old.length + 1 }
    {
        self.push(b'0' + digit as u8);
    }

    // A number in decimal, without leading zeros; of one above 9999 the last four digits.
    fn push_number(&mut self, n: u32)
        requires { self.old.length + 4 ≤ 15 }
        ensures bytes { code_bytes self.new ≡ code_bytes self.old ++ number n }
        ensures length { self.new.length ≤ self.old.length + 4 }
    {
        for least in [1000, 100, 10] {
            if least <= n {
                self.push_digit(n / least % 10);
            }
        }
        self.push_digit(n % 10);
    }

    // A semicolon and a digit, if the attribute is set.
    fn push_attribute(&mut self, attributes: u8, bit: u8, digit: u8)
        requires room { self.old.length + 2 ≤ 15 }
        requires bit { 0 < bit }
        ensures bytes { code_bytes self.new ≡ code_bytes self.old ++ attribute_bytes attributes bit digit }
        ensures length { self.new.length ≤ self.old.length + 2 }
    {
        if attributes / bit % 2 == 1 {
            self.push_all(&[b';', digit]);
        }
    }

    // ESC [ 0, then ;1 ;4 ;5 ;7 as set, then m.
    fn push_change(&mut self, attributes: u8)
        requires { self.old.length + 12 ≤ 15 }
        ensures bytes { code_bytes self.new ≡ code_bytes self.old ++ change_bytes attributes }
        ensures length { self.new.length ≤ self.old.length + 12 }
    {
        self.push_all(&[ESC, b'[', b'0']);
        for (bit, digit) in ATTRIBUTE_DIGITS {
            self.push_attribute(attributes, bit, digit);
        }
        self.push(b'm');
    }

    // A character as UTF-8; by hand, since a surrogate, which is no `char`, is written too.
    #[tactic(auto, using(crate::proofs::Sizes::two_bytes, crate::proofs::Sizes::three_bytes))]
    fn push_character(&mut self, character: u32)
        requires room { self.old.length + 3 ≤ 15 }
        requires small { character < 65536 }
        ensures { code_bytes self.new ≡ code_bytes self.old ++ encode character }
    {
        if character < 0x80 {
            self.push(character as u8);
        } else if character < 0x800 {
            self.push_all(&[0xC0 + (character / 64) as u8, 0x80 + (character % 64) as u8]);
        } else {
            self.push_all(&[
                0xE0 + (character / 4096) as u8,
                0x80 + (character / 64 % 64) as u8,
                0x80 + (character % 64) as u8,
            ]);
        }
    }

    // The bytes themselves.
    pub fn as_slice(&self) -> &[u8]
        ensures { result.now ≡ code_bytes self.now }
    {
        &self.bytes[0..self.length]
    }
}

// ESC [ n C
fn right_code(n: u32) -> Code
    ensures { code_bytes result ≡ right_bytes n }
{
    let mut code = Code::new();
    code.push_all(&[ESC, b'[']);
    code.push_number(n);
    code.push(b'C');
    code
}

// ESC [ row ; column H. Two numbers of 16 bits here and in what calls it, no spot: one more than each still is a number of 32 bits.
fn to_code(row: u16, column: u16) -> Code
    ensures { code_bytes result ≡ to_bytes row column }
{
    let mut code = Code::new();
    code.push_all(&[ESC, b'[']);
    code.push_number(u32::from(row) + 1);
    code.push(b';');
    code.push_number(u32::from(column) + 1);
    code.push(b'H');
    code
}

// A move from a cursor to a spot, in the shortest form.
fn shortest_move(cursor: Option<Spot>, row: u16, column: u16) -> Code
    ensures { code_bytes result ≡ move_bytes cursor row column }
{
    let to = usize::from(column);
    match cursor {
        Some(spot) if spot.row == usize::from(row) && spot.column <= to => {
            if spot.column == to {
                Code::new()
            } else {
                right_code((to - spot.column) as u32)
            }
        }
        _ => to_code(row, column),
    }
}

// The code of a move from a cursor to a spot. An emulator with that cursor reads it as the move.
#[tactic(auto, using(crate::proofs::Trips::reads_as_move))]
pub fn move_code(cursor: Option<Spot>, row: u16, column: u16) -> Code
    ensures bytes { code_bytes result ≡ move_bytes cursor row column }
    ensures read { ReadsAsMove cursor row column (code_bytes result) }
{
    shortest_move(cursor, row, column)
}

// A character with attributes, after a change of the pen if that has others.
fn character_code(pen: u8, character: u32, attributes: u8) -> Code
    requires { character < 65536 }
    ensures { code_bytes result ≡ put_bytes pen character attributes }
{
    let mut code = Code::new();
    if pen != attributes {
        code.push_change(attributes);
    }
    code.push_character(character);
    code
}

// The code of a character with attributes, none past 0xFFFF. An emulator with that pen reads it as the character; what follows the change of
// the pen is, to the reader, that character and nothing before its last byte.
pub fn put_code(pen: u8, character: u32, attributes: u8) -> Option<Code>
    ensures bytes { MatchOption result (65536 ≤ character) (λ c. code_bytes c ≡ put_bytes pen character attributes) }
    ensures read { MatchOption result (65536 ≤ character) (λ c. ReadsAsCharacter pen character attributes (code_bytes c)) }
    ensures decoded { MatchOption result (65536 ≤ character) (λ c. IsCharacter character (drop (length (pen_bytes pen attributes)) (code_bytes c))) }
{
    if character > 0xFFFF {
        return None;
    }
    Some(character_code(pen, character, attributes))
}

// How many bytes change the pen: four, and two more for each attribute that is set.
#[tactic(auto, using(crate::proofs::Sizes::change_size))]
pub fn change_length(attributes: u8) -> usize
    ensures ones { result ≡ 4 + 2 * count_ones attributes }
    ensures bytes { attributes ≤ 15 → result ≡ length (change_bytes attributes) }
{
    4 + 2 * attributes.count_ones() as usize
}
