// What every device promises, at the dumb terminal and in its own words.
ghost use Rattle.std.specs.Prelude.{◌≡◌, [], ◌∷◌, length, Some, None, MatchResult};
ghost use Rattle.faults.specs.Refusals.{fault_of};
ghost use Rattle.faults.specs.declared.Fault.TheVariants.{NotDrawable};
ghost use Rattle.byte_cells.specs.ByteCells.{byte_layer, byte_glyph};
ghost use Rattle.std.specs.List.{slice_get};
ghost use Rattle.lines.specs.Sending.{sent_bytes, Sent};
ghost use Rattle.terminal.specs.Meanings.{Sound};
ghost use Rattle.terminal.specs.Operations.{Move, Put, PutPair, refusal, with_room, Effect};
ghost use Rattle.devices.specs.Devices.{LineEmptied};
ghost use Rattle.dumb.specs.Dumbs.{size_refusal, dumb_of, new_meaning, move_bytes};

use byte_cells::ByteCell;
use dumb::Dumb;
use faults::Fault;
use places::{Size, Spot};
use terminal::terminals::Terminal;

fn check(size: Size, cells: usize) -> Result<(), Fault>
    ensures { fault_of result ≡ size_refusal size.rows size.columns cells }
{
    Dumb::check(size, cells)
}

fn new<'a>(cells: &'a mut [ByteCell], size: Size, line: &'a mut [u8]) -> Dumb<'a>
    ensures cells { result.face.grid.cells.now ≡ cells.old }
    ensures size { result.face.grid.size ≡ size }
    ensures cursor { result.face.cursor ≡ None }
    ensures bytes { result.line.bytes.now ≡ line.old }
    ensures sent { result.line.sent ≡ 0 }
    ensures tally { result.tally ≡ 0 }
    ensures meaning { dumb_of result ≡ new_meaning cells.old size.rows size.columns (length line.old) }
{
    Dumb::new(cells, size, line)
}

fn empty(dumb: &mut Dumb<'_>)
    ensures line { LineEmptied dumb.old dumb.new }
    ensures meaning { dumb_of dumb.new ≡ with_room (length dumb.old.line.bytes.now) (dumb_of dumb.old) }
{
    dumb.empty();
}

fn move_to(dumb: &mut Dumb<'_>, to: Spot) -> Result<(), Fault>
    ensures refusal { fault_of result ≡ refusal byte_glyph (dumb_of dumb.old) (Move to.row to.column) }
    ensures effect { Effect byte_layer byte_glyph (dumb_of dumb.old) (dumb_of dumb.new) (Move to.row to.column) result }
    ensures bytes { MatchResult result (λ _. Sent dumb.old.line dumb.new.line (move_bytes to.row to.column)) (λ _. dumb.new ≡ dumb.old) }
{
    dumb.move_to(to)
}

fn put(dumb: &mut Dumb<'_>, cell: ByteCell) -> Result<(), Fault>
    ensures refusal { fault_of result ≡ refusal byte_glyph (dumb_of dumb.old) (Put cell) }
    ensures effect { Effect byte_layer byte_glyph (dumb_of dumb.old) (dumb_of dumb.new) (Put cell) result }
    ensures bytes { MatchResult result (λ _. Sent dumb.old.line dumb.new.line (cell.byte ∷ [])) (λ _. dumb.new ≡ dumb.old) }
{
    dumb.put(cell)
}

fn put_pair(dumb: &mut Dumb<'_>, left: ByteCell, right: ByteCell) -> Result<(), Fault>
    ensures refusal { fault_of result ≡ refusal byte_glyph (dumb_of dumb.old) (PutPair left right) }
    ensures effect { Effect byte_layer byte_glyph (dumb_of dumb.old) (dumb_of dumb.new) (PutPair left right) result }
    ensures refused { (fault_of result ≡ Some NotDrawable) × (dumb.new ≡ dumb.old) }
{
    dumb.put_pair(left, right)
}

fn rows(dumb: &Dumb<'_>) -> usize
    ensures told { result ≡ (dumb_of dumb.now).rows }
    ensures sound { Sound (dumb_of dumb.now) }
{
    dumb.rows()
}

fn columns(dumb: &Dumb<'_>) -> usize
    ensures { result ≡ (dumb_of dumb.now).columns }
{
    dumb.columns()
}

fn cursor(dumb: &Dumb<'_>) -> Option<Spot>
    ensures { result ≡ (dumb_of dumb.now).cursor }
{
    dumb.cursor()
}

fn room(dumb: &Dumb<'_>) -> usize
    ensures { result ≡ (dumb_of dumb.now).room }
{
    dumb.room()
}

fn need(dumb: &Dumb<'_>) -> usize
    ensures { result ≡ (dumb_of dumb.now).need }
{
    dumb.need()
}

fn tally(dumb: &Dumb<'_>) -> u64
    ensures { result ≡ (dumb_of dumb.now).tally }
{
    dumb.tally()
}

fn sent(dumb: &Dumb<'_>) -> usize
    ensures { result ≡ dumb.now.line.sent }
{
    dumb.sent()
}

fn sent_byte(dumb: &Dumb<'_>, index: usize) -> Option<u8>
    ensures { result ≡ slice_get (sent_bytes dumb.now.line.bytes.now dumb.now.line.sent) index }
{
    dumb.sent_byte(index)
}
