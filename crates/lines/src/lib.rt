// A line: byte memory of the caller's that a terminal's bytes are sent into, one after another.
#![tactic(auto)]

ghost use Rattle.std.specs.Prelude.{◌≡◌, ◌+◌, ◌≤◌, length, MatchResult};
ghost use Rattle.std.specs.List.{slice_get};
ghost use Rattle.faults.specs.Refusals.{fault_of};
ghost use Rattle.lines.specs.Sending.{written, sent_bytes, room_of, send_refusal, Sent, Emptied};

use faults::Fault;

// The memory, and how many bytes were sent into it since it was empty: a slice with a length beside, since it is the caller's memory.
#[derive(Drop)]
pub struct Line<'a> {
    pub bytes: &'a mut [u8],
    pub sent: usize,
}

// Writes new bytes over those from an index on.
fn write_bytes(bytes: &mut [u8], from: usize, new: &[u8])
    requires { from + length new.now ≤ length bytes.old }
    ensures { bytes.new ≡ written bytes.old from new.now }
{
    let end = from + new.len();
    bytes[from..end].copy_from_slice(new);
}

impl<'a> Line<'a> {
    // An empty line over memory, whatever that holds.
    pub fn new(bytes: &'a mut [u8]) -> Line<'a>
        ensures bytes { result.bytes.now ≡ bytes.old }
        ensures sent { result.sent ≡ 0 }
    {
        Line { bytes, sent: 0 }
    }

    // How many bytes it takes before it is full.
    pub fn room(&self) -> usize
        ensures { result ≡ room_of self.now }
    {
        self.bytes.len().saturating_sub(self.sent)
    }

    // Sends bytes: all of them, or none if there is too little room.
    pub fn send(&mut self, new: &[u8]) -> Result<(), Fault>
        ensures refusal { fault_of result ≡ send_refusal self.old (length new.now) }
        ensures effect { MatchResult result (λ _. Sent self.old self.new new.now) (λ _. self.new ≡ self.old) }
    {
        if self.sent > self.bytes.len() || new.len() > self.room() {
            return Err(Fault::LineFull);
        }
        write_bytes(self.bytes, self.sent, new);
        self.sent += new.len();
        Ok(())
    }

    // The bytes that were sent, oldest first.
    pub fn sent_bytes(&self) -> &[u8]
        ensures { result.now ≡ sent_bytes self.now.bytes.now self.now.sent }
    {
        &self.bytes[..self.sent.min(self.bytes.len())]
    }

    // The byte at an index of those that were sent, none past them.
    pub fn byte(&self, index: usize) -> Option<u8>
        ensures { result ≡ slice_get (sent_bytes self.now.bytes.now self.now.sent) index }
    {
        self.sent_bytes().get(index).copied()
    }

    // Empties the line: the memory stays as it is, and nothing in it counts as sent.
    pub fn empty(&mut self)
        ensures { Emptied self.old self.new }
    {
        self.sent = 0;
    }
}
