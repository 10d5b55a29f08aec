// What every device promises, at the ECMA-48 terminal and in its own words.
ghost use Rattle.std.specs.Prelude.{◌≡◌, length, MatchResult};
ghost use Rattle.faults.specs.Refusals.{fault_of};
ghost use Rattle.text_cells.specs.TextCells.{text_layer, text_glyph};
ghost use Rattle.std.specs.List.{slice_get};
ghost use Rattle.lines.specs.Sending.{sent_bytes, Sent};
ghost use Rattle.terminal.specs.Meanings.{Sound};
ghost use Rattle.terminal.specs.Operations.{Move, Put, PutPair, refusal, with_room, Effect};
ghost use Rattle.devices.specs.Devices.{LineEmptied};
ghost use Rattle.emulator.specs.Emulators.{screen_of, first_screen};
ghost use Rattle.emulator.specs.Screens.{read_bytes};
ghost use Rattle.ecma_bytes.specs.Bytes.{move_bytes, put_bytes};
ghost use Rattle.ecma48.specs.Sizes.{size_refusal, over_screen};
ghost use Rattle.ecma48.specs.Ecmas.{ecma_of};

use ecma48::Ecma48;
use faults::Fault;
use places::{Size, Spot};
use terminal::terminals::Terminal;
use text_cells::TextCell;

fn check(size: Size, cells: usize) -> Result<(), Fault>
    ensures { fault_of result ≡ size_refusal size.rows size.columns cells }
{
    Ecma48::check(size, cells)
}

fn new<'a>(cells: &'a mut [TextCell], size: Size, line: &'a mut [u8]) -> Ecma48<'a>
    ensures cells { result.face.emulator.grid.cells.now ≡ cells.old }
    ensures size { result.face.emulator.grid.size ≡ size }
    ensures screen { screen_of result.face.emulator ≡ first_screen cells.old size }
    ensures bytes { result.line.bytes.now ≡ line.old }
    ensures sent { result.line.sent ≡ 0 }
    ensures meaning { ecma_of result ≡ over_screen (first_screen cells.old size) (length line.old) 0 }
{
    Ecma48::new(cells, size, line)
}

fn empty(terminal: &mut Ecma48<'_>)
    ensures line { LineEmptied terminal.old terminal.new }
    ensures meaning { ecma_of terminal.new ≡ with_room (length terminal.old.line.bytes.now) (ecma_of terminal.old) }
{
    terminal.empty();
}

fn move_to(terminal: &mut Ecma48<'_>, to: Spot) -> Result<(), Fault>
    ensures refusal { fault_of result ≡ refusal text_glyph (ecma_of terminal.old) (Move to.row to.column) }
    ensures effect { Effect text_layer text_glyph (ecma_of terminal.old) (ecma_of terminal.new) (Move to.row to.column) result }
    ensures bytes { MatchResult result (λ _. Sent terminal.old.line terminal.new.line (move_bytes (screen_of terminal.old.face.emulator).cursor to.row to.column)) (λ _. terminal.new ≡ terminal.old) }
    ensures screen { MatchResult result (λ _. screen_of terminal.new.face.emulator ≡ read_bytes (screen_of terminal.old.face.emulator) (move_bytes (screen_of terminal.old.face.emulator).cursor to.row to.column)) (λ _. terminal.new ≡ terminal.old) }
{
    terminal.move_to(to)
}

fn put(terminal: &mut Ecma48<'_>, cell: TextCell) -> Result<(), Fault>
    ensures refusal { fault_of result ≡ refusal text_glyph (ecma_of terminal.old) (Put cell) }
    ensures effect { Effect text_layer text_glyph (ecma_of terminal.old) (ecma_of terminal.new) (Put cell) result }
    ensures bytes { MatchResult result (λ _. Sent terminal.old.line terminal.new.line (put_bytes terminal.old.face.emulator.pen cell.character cell.attributes)) (λ _. terminal.new ≡ terminal.old) }
    ensures screen { MatchResult result (λ _. screen_of terminal.new.face.emulator ≡ read_bytes (screen_of terminal.old.face.emulator) (put_bytes terminal.old.face.emulator.pen cell.character cell.attributes)) (λ _. terminal.new ≡ terminal.old) }
{
    terminal.put(cell)
}

fn put_pair(terminal: &mut Ecma48<'_>, left: TextCell, right: TextCell) -> Result<(), Fault>
    ensures refusal { fault_of result ≡ refusal text_glyph (ecma_of terminal.old) (PutPair left right) }
    ensures effect { Effect text_layer text_glyph (ecma_of terminal.old) (ecma_of terminal.new) (PutPair left right) result }
    ensures bytes { MatchResult result (λ _. Sent terminal.old.line terminal.new.line (put_bytes terminal.old.face.emulator.pen left.character left.attributes)) (λ _. terminal.new ≡ terminal.old) }
    ensures screen { MatchResult result (λ _. screen_of terminal.new.face.emulator ≡ read_bytes (screen_of terminal.old.face.emulator) (put_bytes terminal.old.face.emulator.pen left.character left.attributes)) (λ _. terminal.new ≡ terminal.old) }
{
    terminal.put_pair(left, right)
}

fn rows(terminal: &Ecma48<'_>) -> usize
    ensures told { result ≡ (ecma_of terminal.now).rows }
    ensures sound { Sound (ecma_of terminal.now) }
{
    terminal.rows()
}

fn columns(terminal: &Ecma48<'_>) -> usize
    ensures { result ≡ (ecma_of terminal.now).columns }
{
    terminal.columns()
}

fn cursor(terminal: &Ecma48<'_>) -> Option<Spot>
    ensures { result ≡ (ecma_of terminal.now).cursor }
{
    terminal.cursor()
}

fn room(terminal: &Ecma48<'_>) -> usize
    ensures { result ≡ (ecma_of terminal.now).room }
{
    terminal.room()
}

fn need(terminal: &Ecma48<'_>) -> usize
    ensures { result ≡ (ecma_of terminal.now).need }
{
    terminal.need()
}

fn tally(terminal: &Ecma48<'_>) -> u64
    ensures { result ≡ (ecma_of terminal.now).tally }
{
    terminal.tally()
}

fn sent(terminal: &Ecma48<'_>) -> usize
    ensures { result ≡ terminal.now.line.sent }
{
    terminal.sent()
}

fn sent_byte(terminal: &Ecma48<'_>, index: usize) -> Option<u8>
    ensures { result ≡ slice_get (sent_bytes terminal.now.line.bytes.now terminal.now.line.sent) index }
{
    terminal.sent_byte(index)
}
