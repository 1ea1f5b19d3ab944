// A replay session: a script goes in, in pieces of any size, and its listing comes out. The caller lends the memory: a table and a store, a buffer for the bytes of a
// call, and room for a line of text.
//
// What is lent stays three parameters. A struct of them was tried: by value it can't be passed on to a call, and behind a `&mut` each function has to promise of each slice
// that it is the same, and the proof of `run` didn't close.
#![tactic(auto)]

ghost use Rattle.std.specs.Prelude.{◌≡◌, ◌*◌, min, length, drop, if◌then◌else◌, slice_index_or};
ghost use Rattle.rules.specs.Layout.{file, slots, blocks};
ghost use Rattle.rules.specs.Replay.{max_replay_slots, heading, bad_configuration};
ghost use Rattle.session.specs.Turn.{new_session, onward, words_asked, blank_table, fault_text, finish_text, outcome_of, turn, Written, Prepared, Begun, Ran, Acts, Turned};
ghost use Rattle.session.specs.Play.{play, Played};

use rules::{
    BLOCK_BYTES, BLOCKS, CELL_WORDS, FILE_WORDS, FILES, HEADER_WORDS, PROCESS_WORDS, PROCESSES,
    SEGMENT_WORDS, SEGMENTS, SUBTYPE_WORDS, SUBTYPES, XOK,
};
use script::{Moved, Reader, What};

// What is carried from piece to piece: what is being read; how many calls were made; how many words and bytes of the lent table and store are in use, once they are
// set up; and whether a bad line was written, after which nothing is read (a `bool`, since all that is ever asked is whether it is over).
#[derive(Clone, Copy)]
pub struct Session {
    pub reader: Reader,
    pub lines: u64,
    pub words: usize,
    pub bytes: usize,
    pub over: bool,
}

impl Session {
    // The same table and store, further on in the input.
    fn onward(self, reader: Reader, lines: u64, over: bool) -> Session
        ensures { result ≡ onward self reader lines over }
    {
        Session {
            reader,
            lines,
            over,
            ..self
        }
    }
}

// How far a piece was read, and the place past the text that is due.
#[derive(Clone, Copy)]
pub struct Stepped {
    pub session: Session,
    pub next: usize,
    pub end: usize,
}

pub const MAX_BUFFER: usize = 512;

pub const MAX_REPLAY_BLOCKS: usize = 64;

pub const MAX_REPLAY_SLOTS: usize = 64;

// Any line has room in this.
const LINE_BYTES: usize = 1200;

// A session at the start of an input. The header's last zero, which the input does not have, is put into the table.
pub fn start(table: &mut [u32]) -> Session
    ensures { (result ≡ new_session) × (table.new ≡ blank_table table.old) }
{
    words::put(table, HEADER_WORDS - 1, 0);
    Session {
        reader: Reader::new(),
        lines: 0,
        words: 0,
        bytes: 0,
        over: false,
    }
}

fn put_fault(out: &mut [u8], at: usize, calling: bool) -> usize
    ensures { Written out.old at (fault_text calling) result out.new }
{
    if calling {
        output::put_bytes(out, at, b"bad script\n")
    } else {
        output::put_bytes(out, at, b"bad configuration\n")
    }
}

// The input has ended: writes the text that is due then at the front of the output, and answers its length.
#[tactic(auto, using(crate::proofs::Ways::nothing), unfolding(crate::specs::Turn::finish_text))]
pub fn finish(x: Session, out: &mut [u8]) -> usize
    ensures { Written out.old 0 (finish_text x) result out.new }
{
    if x.over || x.reader.is_between() {
        return 0;
    }
    put_fault(out, 0, x.reader.is_calling())
}

// How many slots of a kind the header asks for in its word, and no more than replay takes.
fn slots_asked(table: &[u32], word: usize) -> usize
    ensures { result ≡ min (slice_index_or table.now word 0) max_replay_slots }
{
    (words::word(table, word) as usize).min(MAX_REPLAY_SLOTS)
}

// How many words a table with this header has, if it has no more slots of a kind than replay takes. With more it is given too few, and set-up refuses it.
#[tactic(auto, unfolding(rules::specs::Layout::cells, rules::specs::Layout::subtypes, rules::specs::Layout::slots))]
fn table_words(table: &[u32]) -> usize
    ensures { result ≡ words_asked table.now }
{
    let cells = CELL_WORDS * words::word(table, 0) as usize;
    let subtypes = SUBTYPE_WORDS * words::word(table, SUBTYPES) as usize;
    let processes = PROCESS_WORDS * slots_asked(table, PROCESSES);
    let segments = SEGMENT_WORDS * slots_asked(table, SEGMENTS);
    let files = FILE_WORDS * slots_asked(table, FILES);
    HEADER_WORDS + cells + subtypes + processes + segments + files
}

// How many blocks all its files have.
#[tactic(auto, unfolding(rules::specs::Layout::slots, rules::specs::Layout::blocks))]
fn file_blocks(table: &[u32]) -> usize
    ensures { result ≡ slots table.now file * blocks table.now }
{
    words::word(table, FILES) as usize * words::word(table, BLOCKS) as usize
}

// The configuration is whole, at the front of the table: sets up as much of the table as it asks for, over a store of zeros. A session over these is over where set-up
// refuses it.
fn prepare(reader: Reader, table: &mut [u32], store: &mut [u8]) -> Session
    ensures { Prepared reader table.old store.old result table.new store.new }
{
    let words = table_words(table).min(table.len());
    let blocks = file_blocks(table).min(MAX_REPLAY_BLOCKS);
    let bytes = (blocks * BLOCK_BYTES).min(store.len());
    store.fill(0);
    let answer = table::set_up(&mut table[..words], bytes);
    Session {
        reader,
        lines: 0,
        words,
        bytes,
        over: answer != XOK,
    }
}

// The first line: the heading, or the bad line where the configuration is refused.
#[tactic(auto, unfolding(rules::specs::Replay::heading, rules::specs::Errors::ascii))]
fn put_opening(out: &mut [u8], at: usize, accepted: bool) -> usize
    ensures { Written out.old at (if accepted then heading else bad_configuration) result out.new }
{
    if accepted {
        output::put_bytes(out, at, b"n error first second\n")
    } else {
        put_fault(out, at, false)
    }
}

// The configuration is whole: calls follow it, or, where it is refused, nothing more is read.
fn begin(
    reader: Reader,
    next: usize,
    table: &mut [u32],
    store: &mut [u8],
    out: &mut [u8],
    at: usize,
) -> Stepped
    ensures { Begun reader next table.old store.old out.old at result table.new store.new out.new }
{
    let session = prepare(reader, table, store);
    let end = put_opening(out, at, !session.over);
    Stepped { session, next, end }
}

// A call is whole, with these numbers and its bytes at the front of the buffer: runs it and writes its line, which is number n.
fn run(
    x: Session,
    n: u64,
    nums: [u32; 6],
    table: &mut [u32],
    store: &mut [u8],
    buf: &mut [u8],
    out: &mut [u8],
    at: usize,
) -> usize
    ensures { Ran (outcome_of x nums table.old store.old buf.old) n nums table.old store.old buf.old out.old at result table.new store.new buf.new out.new }
{
    let words = x.words.min(table.len());
    let bytes = x.bytes.min(store.len());
    let k = (nums[5] as usize).min(MAX_BUFFER).min(buf.len());
    let r = calls::call(
        &mut table[..words],
        &mut store[..bytes],
        nums[0],
        nums[1],
        nums[2],
        nums[3],
        nums[4],
        &mut buf[..k],
    );
    text::put_line(out, at, n, nums[1], r.error, r.first, r.second, &buf[..k])
}

// Does what the piece that was read asks for.
#[tactic(auto, using(crate::proofs::Ways::nothing), unfolding(crate::specs::Turn::acted))]
fn act(
    x: Session,
    m: Moved,
    table: &mut [u32],
    store: &mut [u8],
    buf: &mut [u8],
    out: &mut [u8],
    at: usize,
) -> Stepped
    ensures { Acts x m table.old store.old buf.old out.old at result table.new store.new buf.new out.new }
{
    let Moved { what, reader, next } = m;
    match what {
        What::More => Stepped {
            session: x.onward(reader, x.lines, false),
            next,
            end: at,
        },
        What::Configuration => begin(reader, next, table, store, out, at),
        What::Call => {
            let n = x.lines.wrapping_add(1);
            let end = run(x, n, reader.nums, table, store, buf, out, at);
            Stepped {
                session: x.onward(reader, n, false),
                next,
                end,
            }
        }
        What::Fault => {
            let end = put_fault(out, at, x.reader.is_calling());
            Stepped {
                session: x.onward(reader, x.lines, true),
                next,
                end,
            }
        }
    }
}

// Reads on in a piece, from a place on, up to the end of the configuration or of a call, a fault, or the piece's end, and writes the text that is due.
#[tactic(auto, using(crate::proofs::Ways::nothing), unfolding(crate::specs::Turn::turn))]
pub fn step(
    x: Session,
    table: &mut [u32],
    store: &mut [u8],
    buf: &mut [u8],
    out: &mut [u8],
    at: usize,
    s: &[u8],
    from: usize,
) -> Stepped
    ensures { Turned (turn x table.old store.old buf.old (drop from s.now) from) out.old at result table.new store.new buf.new out.new }
{
    if x.over {
        return Stepped {
            session: x,
            next: from.max(s.len()),
            end: at,
        };
    }
    let m = script::advance(x.reader, table, buf, s, from);
    act(x, m, table, store, buf, out, at)
}

// Steps through a piece, from a place on, as long as the output has room for a line. Their texts stand at the front of the output then. (No `for`: each step says where
// the next begins.)
pub fn play(
    x: Session,
    table: &mut [u32],
    store: &mut [u8],
    buf: &mut [u8],
    out: &mut [u8],
    s: &[u8],
    from: usize,
) -> Stepped
    ensures { Played (play x table.old store.old buf.old (drop from s.now) from (length out.old)) out.old result table.new store.new buf.new out.new }
{
    let mut session = x;
    let mut next = from;
    let mut end = 0;
    while next < s.len() && LINE_BYTES <= out.len() - end {
        let r = step(session, table, store, buf, out, end, s, next);
        session = r.session;
        next = r.next;
        end = r.end;
    }
    Stepped { session, next, end }
}
