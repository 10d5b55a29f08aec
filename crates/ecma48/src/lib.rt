// The ECMA-48 terminal: text cells on at most 64 rows of 128 columns, shown by its own emulator, which reads what it sends.
#![tactic(auto)]

ghost use Rattle.std.specs.Prelude.{◌≡◌, ◌<◌, ◌≤◌, length};
ghost use Rattle.lines.specs.Sending.{room_of, Sent};
ghost use Rattle.emulator.specs.Emulators.{screen_of};
ghost use Rattle.ecma_bytes.specs.Bytes.{put_bytes};
ghost use Rattle.ecma_bytes.specs.RoundTrip.{ReadsAsCharacter};
ghost use Rattle.ecma_bytes.specs.Codes.{code_bytes};
ghost use Rattle.ecma48.specs.Sizes.{limits, is_plain, is_usable};
ghost use Rattle.ecma48.specs.Ecmas.{shown_by, first_shown, IsNew, bytes_of, Reads};

use devices::device::Device;
use devices::faces::Face;
use ecma_bytes::codes::Code;
use ecma_bytes::writer::{move_code, put_code};
use emulator::Emulator;
use lines::Line;
use places::{Size, Spot};
use reader::states::State;
use terminal::sizes::Limits;
use text_cells::TextCell;

// Room for the longest code.
const NEED: usize = 15;

const LIMITS: Limits = Limits {
    rows: 64,
    columns: 128,
};

// What an ECMA-48 terminal shows: what its emulator reads of the bytes that it sends.
#[derive(Drop)]
pub struct EcmaFace<'a> {
    pub emulator: Emulator<'a>,
}

// A terminal over a grid and a line of the caller's. If its size is refused, it has no rows and no columns.
pub type Ecma48<'a> = Device<'a, EcmaFace<'a>>;

// Does the emulator wait for no further byte?
fn is_plain(state: State) -> bool
    ensures { result ≡ is_plain state }
{
    matches!(state, State::Plain)
}

impl<'a> EcmaFace<'a> {
    // Is its size allowed, and does its emulator wait for no further byte?
    fn is_usable(&self) -> bool
        ensures { result ≡ is_usable (screen_of self.now.emulator) }
    {
        LIMITS.allow(self.emulator.size()) && is_plain(self.emulator.state)
    }

    // Sends a code and has the emulator read it.
    fn say(&mut self, code: Code, line: &mut Line<'_>)
        requires { 15 ≤ room_of line.old }
        ensures sent { Sent line.old line.new (code_bytes code) }
        ensures read { Reads self.old (code_bytes code) self.new }
    {
        let _ = line.send(code.as_slice()); // there is room, so it is accepted
        self.emulator.read_all(code.as_slice());
    }

    // Sends a cell's character, after a change of the pen if that has other attributes.
    #[tactic(auto, using(crate::proofs::Operating::code_short))]
    fn say_character(&mut self, cell: TextCell, line: &mut Line<'_>)
        requires small { cell.character < 65536 }
        requires room { 15 ≤ room_of line.old }
        ensures sent { Sent line.old line.new (put_bytes self.old.emulator.pen cell.character cell.attributes) }
        ensures read { Reads self.old (put_bytes self.old.emulator.pen cell.character cell.attributes) self.new }
        ensures short { length (put_bytes self.old.emulator.pen cell.character cell.attributes) ≤ 15 }
        ensures shown { ReadsAsCharacter self.old.emulator.pen cell.character cell.attributes (put_bytes self.old.emulator.pen cell.character cell.attributes) }
    {
        match put_code(self.emulator.pen, cell.character, cell.attributes) {
            Some(code) => self.say(code, line),
            None => unreachable!(),
        }
    }
}

impl<'a> Face<'a> for EcmaFace<'a> {
    type Cell = TextCell;

    ghost limits = { limits };

    ghost need = { 15 };

    ghost shown = { shown_by };

    ghost first_shown = { first_shown };

    ghost IsNew = { IsNew };

    ghost bytes_of = { bytes_of };

    ghost Reads = { Reads };

    fn limits() -> Limits
        ensures { result ≡ limits }
    {
        LIMITS
    }

    fn need() -> usize
        ensures { result ≡ 15 }
    {
        NEED // the pen and a character
    }

    fn new(cells: &'a mut [TextCell], size: Size) -> EcmaFace<'a> {
        EcmaFace {
            emulator: Emulator::new(cells, size),
        }
    }

    // Each face, as a pane too, has a test of its own for whether its size counts.
    fn size(&self) -> Size {
        if self.is_usable() {
            self.emulator.size() // rows and columns
        } else {
            Size::NONE
        }
    }

    fn cursor(&self) -> Option<Spot> {
        if self.is_usable() {
            self.emulator.cursor() // known only on the grid
        } else {
            None // of no usable size
        }
    }

    // The shortest code that leads there.
    fn move_to(&mut self, to: Spot, line: &mut Line<'_>) {
        let cursor = self.emulator.cursor();
        self.say(move_code(cursor, to.row as u16, to.column as u16), line);
    }

    fn put(&mut self, _at: Spot, cell: TextCell, line: &mut Line<'_>) {
        self.say_character(cell, line);
    }

    // The character of both halves, as for a single.
    fn put_pair(&mut self, _at: Spot, left: TextCell, _right: TextCell, line: &mut Line<'_>) {
        self.say_character(left, line);
    }
}
