// A device: a face, the line that its bytes go into, and the tally of the cells put.
ghost use Rattle.std.specs.Prelude.{◌≡◌, [], ◌∷◌, length, IfOk, MatchResult, nat_lt};
ghost use Rattle.std.specs.List.{slice_get};
ghost use Rattle.faults.specs.Refusals.{first, fault_of};
ghost use Rattle.faults.specs.declared.Fault.TheVariants.{LineFull};
ghost use Rattle.lines.specs.Sending.{sent_bytes, room_of};
ghost use Rattle.terminal.specs.Operations.{Move, Put, PutPair, refusal, with_room, Effect};
ghost use Rattle.terminal.specs.Acceptance.{MayMove, MayPut, MayPutPair};
ghost use Rattle.terminal.specs.Sizes.{size_refusal};
ghost use Rattle.devices.specs.Shown.{over};
ghost use Rattle.devices.specs.Devices.{device_of, Said, LineEmptied};

use crate::faces::Face;
use faults::Fault;
use lines::Line;
use places::{Size, Spot};
use terminal::refusals::{spot_of_pair, spot_of_single};
use terminal::terminals::Terminal;

// A terminal over a grid and a line of the caller's. If its size is refused, it has no rows and no columns.
#[derive(Drop)]
pub struct Device<'a, F> {
    pub face: F,
    pub line: Line<'a>,
    pub tally: u64,
}

impl<'a, F: Face<'a>> Device<'a, F> {
    // Is the size refused, over memory of that many cells?
    pub fn check(size: Size, cells: usize) -> Result<(), Fault>
        ensures { fault_of result ≡ size_refusal F.limits.rows F.limits.columns size.rows size.columns cells }
    {
        F::limits().check(size, cells)
    }

    // A terminal over a grid's memory as it is found, with an empty line and an unknown cursor.
    pub fn new(cells: &'a mut [F::Cell], size: Size, line: &'a mut [u8]) -> Device<'a, F>
        ensures face { F.IsNew result.face cells.old size }
        ensures bytes { result.line.bytes.now ≡ line.old }
        ensures sent { result.line.sent ≡ 0 }
        ensures tally { result.tally ≡ 0 }
        ensures meaning { device_of F.shown F.need result ≡ over (F.first_shown cells.old size) (length line.old) F.need 0 }
    {
        Device {
            face: F::new(cells, size),
            line: Line::new(line),
            tally: 0,
        }
    }

    // Empties the line: only its room changes.
    pub fn empty(&mut self)
        ensures line { LineEmptied self.old self.new }
        ensures meaning { device_of F.shown F.need self.new ≡ with_room (length self.old.line.bytes.now) (device_of F.shown F.need self.old) }
    {
        self.line.empty();
    }

    // How many bytes were sent since the line was empty.
    pub fn sent(&self) -> usize
        ensures { result ≡ self.now.line.sent }
    {
        self.line.sent // since it was empty
    }

    // The byte at an index of those that were sent since the line was empty, none past them.
    pub fn sent_byte(&self, index: usize) -> Option<u8>
        ensures { result ≡ slice_get (sent_bytes self.now.line.bytes.now self.now.line.sent) index }
    {
        self.line.byte(index)
    }

    // The bytes that were sent since the line was empty, oldest first.
    pub fn sent_bytes(&self) -> &[u8]
        ensures { result.now ≡ sent_bytes self.now.line.bytes.now self.now.line.sent }
    {
        self.line.sent_bytes()
    }
}

// Why an operation is refused, in the order of the tests.
impl<'a, F: Face<'a>> Device<'a, F> {
    // Is there too little room for an operation?
    fn check_room(&self) -> Result<(), Fault>
        ensures { fault_of result ≡ first ((nat_lt (room_of self.now.line) F.need, LineFull) ∷ []) }
    {
        if self.line.room() < F::need() {
            return Err(Fault::LineFull);
        }
        Ok(())
    }

    // Is a move refused?
    fn check_move(&self, to: Spot) -> Result<(), Fault>
        ensures accepted { IfOk result (λ _. MayMove (device_of F.shown F.need self.now) to.row to.column) }
        ensures refusal { fault_of result ≡ refusal F.Cell.TerminalCell.glyph (device_of F.shown F.need self.now) (Move to.row to.column) }
    {
        if !self.face.size().holds(to) {
            return Err(Fault::OffGrid);
        }
        self.check_room()
    }

    // Is a cell refused? If not, where it is put.
    fn check_put(&self, cell: F::Cell) -> Result<Spot, Fault>
        ensures accepted { IfOk result (λ spot. MayPut F.Cell.TerminalCell.glyph (device_of F.shown F.need self.now) cell spot) }
        ensures refusal { fault_of result ≡ refusal F.Cell.TerminalCell.glyph (device_of F.shown F.need self.now) (Put cell) }
    {
        let spot = spot_of_single(cell, self.face.cursor())?;
        self.check_room()?;
        Ok(spot)
    }

    // Is a pair refused? If not, where it is put.
    fn check_pair(&self, left: F::Cell, right: F::Cell) -> Result<Spot, Fault>
        ensures accepted { IfOk result (λ spot. MayPutPair F.Cell.TerminalCell.glyph (device_of F.shown F.need self.now) left right spot) }
        ensures refusal { fault_of result ≡ refusal F.Cell.TerminalCell.glyph (device_of F.shown F.need self.now) (PutPair left right) }
    {
        let columns = self.face.size().columns;
        let spot = spot_of_pair(left, right, columns, self.face.cursor())?;
        self.check_room()?;
        Ok(spot)
    }
}

impl<'a, F: Face<'a>> Terminal for Device<'a, F> {
    type Cell = F::Cell;

    ghost meaning = { device_of F.shown F.need };

    fn rows(&self) -> usize {
        self.face.size().rows
    }

    fn columns(&self) -> usize {
        self.face.size().columns // none if its size is refused
    }

    fn cursor(&self) -> Option<Spot> {
        self.face.cursor() // none if that is unknown
    }

    fn room(&self) -> usize {
        self.line.room() // in bytes
    }

    fn need(&self) -> usize {
        F::need() // fixed by the face
    }

    fn tally(&self) -> u64 {
        self.tally // modulo 2 ^ 64
    }

    fn move_to(&mut self, to: Spot) -> Result<(), Fault>
        ensures refusal { fault_of result ≡ refusal F.Cell.TerminalCell.glyph (device_of F.shown F.need self.old) (Move to.row to.column) }
        ensures effect { Effect F.Cell.LayerCell.layer F.Cell.TerminalCell.glyph (device_of F.shown F.need self.old) (device_of F.shown F.need self.new) (Move to.row to.column) result }
        ensures said { MatchResult result (λ _. Said F.bytes_of F.Reads self.old self.new (Move to.row to.column)) (λ _. self.new ≡ self.old) }
    {
        self.check_move(to)?;
        self.face.move_to(to, &mut self.line);
        Ok(())
    }

    fn put(&mut self, cell: F::Cell) -> Result<(), Fault>
        ensures refusal { fault_of result ≡ refusal F.Cell.TerminalCell.glyph (device_of F.shown F.need self.old) (Put cell) }
        ensures effect { Effect F.Cell.LayerCell.layer F.Cell.TerminalCell.glyph (device_of F.shown F.need self.old) (device_of F.shown F.need self.new) (Put cell) result }
        ensures said { MatchResult result (λ _. Said F.bytes_of F.Reads self.old self.new (Put cell)) (λ _. self.new ≡ self.old) }
    {
        let spot = self.check_put(cell)?;
        self.face.put(spot, cell, &mut self.line);
        self.tally = self.tally.wrapping_add(1);
        Ok(())
    }

    fn put_pair(&mut self, left: F::Cell, right: F::Cell) -> Result<(), Fault>
        ensures refusal { fault_of result ≡ refusal F.Cell.TerminalCell.glyph (device_of F.shown F.need self.old) (PutPair left right) }
        ensures effect { Effect F.Cell.LayerCell.layer F.Cell.TerminalCell.glyph (device_of F.shown F.need self.old) (device_of F.shown F.need self.new) (PutPair left right) result }
        ensures said { MatchResult result (λ _. Said F.bytes_of F.Reads self.old self.new (PutPair left right)) (λ _. self.new ≡ self.old) }
    {
        let spot = self.check_pair(left, right)?;
        self.face.put_pair(spot, left, right, &mut self.line);
        self.tally = self.tally.wrapping_add(2);
        Ok(())
    }
}
