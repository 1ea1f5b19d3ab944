// A piece of a file at a time.
ghost use Rattle.std.specs.Prelude.{◌≡◌, ◌≤◌, ◌↔◌, ◌==◌, true, false, IsTrue, OnOk, OnErr, length, take};

use player::PIECE_BYTES;
use std::io;
use std::io::Read;

// What was read last of a file: the first `end` bytes, of which those before `next` are used up; and whether the file has ended, which leaves none.
#[derive(Drop)]
pub(crate) struct Piece {
    pub(crate) bytes: [u8; PIECE_BYTES],
    pub(crate) next: usize,
    pub(crate) end: usize,
    pub(crate) ended: bool,
    pub ghost within: { end ≤ length bytes },
    pub ghost none_left: { ended ≡ true → end ≡ 0 },
}

impl Piece {
    // Nothing is read yet.
    pub(crate) fn new() -> Piece
        ensures next { result.next ≡ 0 }
        ensures end { result.end ≡ 0 }
        ensures ended { result.ended ≡ false }
    {
        Piece {
            bytes: [0; PIECE_BYTES],
            next: 0,
            end: 0,
            ended: false,
        }
    }

    pub(crate) fn as_slice(&self) -> &[u8]
        ensures { result.now ≡ take self.now.end self.now.bytes }
    {
        &self.bytes[..self.end]
    }

    // What is left of it.
    pub(crate) fn rest(&self) -> &[u8] {
        self.as_slice().get(self.next..).unwrap_or_default()
    }

    pub(crate) fn is_used_up(&self) -> bool
        ensures { IsTrue result ↔ (self.now.end ≤ self.now.next) }
    {
        self.end <= self.next
    }

    // All that is read comes by this function.
    pub(crate) fn take_in<R: Read + Drop>(&mut self, mut file: R) -> io::Result<()>
        ensures next { OnOk result (self.new.next ≡ 0) }
        ensures ended { OnOk result (self.new.ended ≡ (self.new.end == 0)) }
        ensures kept { OnErr result (self.new.ended ≡ self.old.ended) }
    {
        let n = file.read(&mut self.bytes)?;
        self.next = 0;
        self.end = n;
        self.ended = n == 0;
        Ok(())
    }
}
