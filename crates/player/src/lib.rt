// Replay over standard input and standard output, in a fixed amount of memory: reads a piece of the script, plays it and writes the text that is due, until the input
// ends, a bad line is written, or a read or a write fails.
#![tactic(auto)]

ghost use Rattle.std.specs.Prelude.{◌≡◌, ℕ, ◌≤◌, OnOk, false, length};
ghost use Rattle.std.specs.Io.{ReadsAtMost};
ghost use Rattle.player.specs.Went.{Fresh, counted, report_of, Pieced, Went, Replayed};

mod fault;
mod handed;

pub use fault::fail;
use rules::{BLOCK_BYTES, MAX_CONFIGURATION_WORDS, SLOT_WORDS};
use session::{MAX_BUFFER, MAX_REPLAY_BLOCKS, MAX_REPLAY_SLOTS, Session};
use std::io;
use std::io::Read;

// Room for the largest table that replay takes, for its store, and for the bytes of a call.
pub const TABLE_WORDS: usize = MAX_CONFIGURATION_WORDS + SLOT_WORDS * MAX_REPLAY_SLOTS;

pub const STORE_BYTES: usize = MAX_REPLAY_BLOCKS * BLOCK_BYTES;

// The most that is read at once, or handed on: with less a program would spend its time on the system's calls.
pub const PIECE_BYTES: usize = 65536;

// What ends a replay early: a read or a write that failed.
#[derive(Drop)]
enum Failed {
    Read(io::Error),
    Write(io::Error),
}

// How many bytes a replay read and handed on, modulo 2^64, and whether it came to its end: that of the input, or a bad line, after which nothing is read.
#[derive(Clone, Copy)]
pub struct Report {
    pub read: u64,
    pub handed: u64,
    pub ended: bool,
    pub over: bool,
}

// A replay under way: its session, with the memory that is lent to it; a piece of the input, and the output; how many bytes were read and handed on by now, modulo
// 2^64; and whether the input has ended.
#[derive(Drop)]
struct Player {
    session: Session,
    table: [u32; TABLE_WORDS],
    store: [u8; STORE_BYTES],
    buf: [u8; MAX_BUFFER],
    input: [u8; PIECE_BYTES],
    out: [u8; PIECE_BYTES],
    read: u64,
    handed: u64,
    ended: bool,
}

impl Failed {
    // Says on standard error what failed.
    fn tell(&self, rt: &HostRuntime) {
        match self {
            Failed::Read(error) => fail(rt, b"read", error),
            Failed::Write(error) => fail(rt, b"write", error),
        }
    }
}

// All input comes by this function: answers how many bytes came, which is none where it has ended. (Logcheck has its own, `Piece::take_in`: a public function's
// contract leaves nothing open, and no read can state what comes.)
fn take_in(rt: &HostRuntime, input: &mut [u8]) -> Result<usize, Failed>
    ensures { ReadsAtMost result input.new }
{
    rt.stdin().read(input).map_err(Failed::Read)
}

impl Player {
    fn new() -> Player
        ensures { Fresh result }
    {
        let mut table = [0; TABLE_WORDS];
        let session = session::start(&mut table);
        Player {
            session,
            table,
            store: [0; STORE_BYTES],
            buf: [0; MAX_BUFFER],
            input: [0; PIECE_BYTES],
            out: [0; PIECE_BYTES],
            read: 0,
            handed: 0,
            ended: false,
        }
    }

    // Hands on the first n bytes of the output, and counts them.
    fn hand_on(&mut self, rt: &HostRuntime, n: usize) -> Result<(), Failed>
        requires { n ≤ length self.old.out }
        ensures { self.new ≡ counted self.old n }
    {
        let (text, written) = self.emit(rt, n);
        let bytes = text.len() as u64;
        self.handed = self.handed.wrapping_add(bytes);
        written
    }

    // Plays the first n bytes of the input's piece, and hands on their text each time that the output is full, and at the end.
    fn piece(&mut self, rt: &HostRuntime, n: usize) -> Result<(), Failed>
        requires { n ≤ length self.old.input }
        ensures { (place : ℕ) × Pieced self.old n place self.new × OnOk result (n ≤ place) }
    {
        let mut from = 0;
        // No `for`: each stretch says where the next begins.
        while from < n {
            let r = session::play(
                self.session,
                &mut self.table,
                &mut self.store,
                &mut self.buf,
                &mut self.out,
                &self.input[..n],
                from,
            );
            self.session = r.session;
            from = r.next;
            self.hand_on(rt, r.end)?;
        }
        Ok(())
    }

    // Reads once, and plays what came; where the input has ended, hands on the text that is due then.
    fn turn(&mut self, rt: &HostRuntime) -> Result<(), Failed>
        requires { self.old.ended ≡ false }
        ensures { Went self.old result self.new }
    {
        let n = take_in(rt, &mut self.input)?;
        if n == 0 {
            self.ended = true;
            let end = session::finish(self.session, &mut self.out);
            return self.hand_on(rt, end);
        }
        self.read = self.read.wrapping_add(n as u64);
        self.piece(rt, n)
    }

    // Turn after turn, until the input has ended or the session is over.
    fn run(&mut self, rt: &HostRuntime) -> Result<(), Failed>
        requires { self.old.ended ≡ false }
        ensures { Went self.old result self.new }
    {
        // A proved loop has to end, and nothing says that an input does: no run uses this number up.
        for _ in 0..u64::MAX {
            self.turn(rt)?;
            if self.ended || self.session.over {
                break;
            }
        }
        Ok(())
    }

    fn report(&self) -> Report
        ensures { result ≡ report_of self.now }
    {
        Report {
            read: self.read,
            handed: self.handed,
            ended: self.ended,
            over: self.session.over,
        }
    }
}

// Replays standard input to its end.
pub fn replay(rt: &HostRuntime) -> Report
    ensures { Replayed result }
{
    let mut player = Player::new();
    if let Err(failed) = player.run(rt) {
        failed.tell(rt);
    }
    player.report()
}
