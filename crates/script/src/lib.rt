// A replay script, read in pieces: the header's numbers, the body's (the cells' and then the subtypes'), then calls, each of six numbers and its buffer's bytes. Any of
// these may lie across any number of pieces of the input.
#![tactic(auto)]

ghost use Rattle.std.specs.Prelude.{true, false, List, ◌≡◌, ℕ, ◌+◌, ◌<◌, ◌≤◌, drop, length, set};
ghost use Rattle.script.specs.Take.{awaiting as awaiting_at, at_call as call_at, new_reader, is_bytes, is_calling, is_between, onward, further, kept_nums, kept_table, counts_fit, header_ended, numbers_ended, ended, numbered, with_part, fed_took, fed_table, bytes_left};
ghost use Rattle.script.specs.Advance.{advance, Advances, Goes};

use numerals::{Fed, Part};
use rules::{CELL_WORDS, HEADER_WORDS, MAX_CELLS, MAX_SUBTYPES, SUBTYPE_WORDS, SUBTYPES};

// What is being read.
#[derive(Clone, Copy, PartialEq, Eq)]
pub enum Stage {
    Header,
    Body,
    Numbers,
    Bytes,
}

// How far it is read: number or byte `field` comes next, or is read in part, and `last` is the last of its stage; nums are the call's numbers.
#[derive(Clone, Copy)]
pub struct Reader {
    pub stage: Stage,
    pub part: Part,
    pub field: u32,
    pub last: u32,
    pub nums: [u32; 6],
}

// What is whole now: the configuration, a call, or nothing yet; or there is a fault. That is no `Err`: with a fault too `advance` promises the reader and the place,
// and no step here goes on from the answer of another, so a `?` would stand nowhere.
#[derive(Clone, Copy, PartialEq, Eq)]
pub enum What {
    More,
    Configuration,
    Call,
    Fault,
}

// What a number made of a reader.
#[derive(Clone, Copy)]
pub struct Took {
    pub what: What,
    pub reader: Reader,
}

// How far a piece was read.
#[derive(Clone, Copy)]
pub struct Moved {
    pub what: What,
    pub reader: Reader,
    pub next: usize,
}

// A piece of the input from a place on, where it has a byte at the least.
#[derive(Clone, Copy)]
struct Ahead<'a> {
    piece: &'a [u8],
    from: usize,
    ghost some: { from < length piece.now },
}

const LAST_OF_HEADER: u32 = 6;

const LAST_OF_CALL: u32 = 5;

const MAX_BUFFER: u32 = 512;

// Of a number no group is read.
const NO_PART: Part = Part { value: 0, count: 0 };

// A reader at the first number or byte of a stage.
fn awaiting(stage: Stage, last: u32, nums: [u32; 6]) -> Reader
    ensures { result ≡ awaiting_at stage last nums }
{
    Reader {
        stage,
        part: NO_PART,
        field: 0,
        last,
        nums,
    }
}

// A reader at the start of a call.
fn at_call(nums: [u32; 6]) -> Reader
    ensures { result ≡ call_at nums }
{
    awaiting(Stage::Numbers, LAST_OF_CALL, nums)
}

// As many cells and subtypes as a configuration can have.
#[tactic(auto, unfolding(crate::specs::Take::counts_fit))]
fn counts_fit(cells: usize, subtypes: usize) -> bool
    ensures { result ≡ counts_fit cells subtypes }
{
    (1..=MAX_CELLS).contains(&cells) && subtypes <= MAX_SUBTYPES
}

impl Reader {
    // At the start of an input.
    pub fn new() -> Reader
        ensures { result ≡ new_reader }
    {
        awaiting(Stage::Header, LAST_OF_HEADER, [0; 6])
    }

    // Past the configuration.
    pub fn is_calling(self) -> bool
        ensures { result ≡ is_calling self }
    {
        matches!(self.stage, Stage::Numbers | Stage::Bytes)
    }

    // The configuration is whole and no call is read in part: here an input may end.
    pub fn is_between(self) -> bool
        ensures { result ≡ is_between self }
    {
        self.stage == Stage::Numbers && self.field == 0 && self.part.count == 0
    }

    // The next number or byte of the stage.
    fn onward(self, nums: [u32; 6]) -> Reader
        requires { self.field < self.last }
        ensures { result ≡ onward self nums }
    {
        Reader {
            part: NO_PART,
            field: self.field + 1,
            nums,
            ..self
        }
    }

    // n bytes further in a call's buffer.
    fn further(self, n: usize) -> Reader
        requires { self.field + n ≤ self.last }
        ensures { result ≡ further self n }
    {
        Reader {
            part: NO_PART,
            field: self.field + n as u32,
            ..self
        }
    }

    // Keeps the number v: in the table where it is of the configuration, else among the call's.
    fn keep(self, table: &mut [u32], v: u32) -> [u32; 6]
        ensures { (result ≡ kept_nums self v) × (table.new ≡ kept_table self v table.old) }
    {
        let at = self.field as usize;
        let mut nums = self.nums;
        match self.stage {
            Stage::Header => words::put(table, at, v),
            Stage::Body => words::put(table, HEADER_WORDS + at, v),
            Stage::Numbers => words::put(&mut nums, at, v),
            Stage::Bytes => {}
        }
        nums
    }

    // The header is whole: its cells and subtypes follow. With too many of them, or no cell, the configuration is bad, whatever follows: so its body is not read.
    #[tactic(auto, unfolding(crate::specs::Take::header_ended, crate::specs::Take::counts_fit))]
    fn header_ended(self, nums: [u32; 6], table: &[u32]) -> Took
        ensures { result ≡ header_ended self nums table.now }
    {
        let cells = words::word(table, 0) as usize;
        let subtypes = words::word(table, SUBTYPES) as usize;
        if !counts_fit(cells, subtypes) {
            return Took {
                what: What::Fault,
                reader: self,
            };
        }
        let last = CELL_WORDS * cells + SUBTYPE_WORDS * subtypes - 1;
        Took {
            what: What::More,
            reader: awaiting(Stage::Body, last as u32, nums),
        }
    }

    // The numbers of a call are whole: as many bytes follow as the last of them says.
    #[tactic(auto, unfolding(crate::specs::Take::numbers_ended))]
    fn numbers_ended(self, nums: [u32; 6], length: u32) -> Took
        ensures { result ≡ numbers_ended self nums length }
    {
        if MAX_BUFFER < length {
            return Took {
                what: What::Fault,
                reader: self,
            };
        }
        if length == 0 {
            return Took {
                what: What::Call,
                reader: at_call(nums),
            };
        }
        Took {
            what: What::More,
            reader: awaiting(Stage::Bytes, length - 1, nums),
        }
    }

    // The last number of a stage is v.
    fn ended(self, nums: [u32; 6], table: &[u32], v: u32) -> Took
        ensures { result ≡ ended self nums table.now v }
    {
        match self.stage {
            Stage::Header => self.header_ended(nums, table),
            Stage::Body => Took {
                what: What::Configuration,
                reader: at_call(nums),
            },
            Stage::Numbers => self.numbers_ended(nums, v),
            Stage::Bytes => Took {
                what: What::Fault,
                reader: self,
            },
        }
    }

    // The number v is whole.
    #[tactic(auto, unfolding(crate::specs::Take::numbered))]
    fn numbered(self, table: &mut [u32], v: u32) -> Took
        ensures { (result ≡ numbered self table.old v) × (table.new ≡ kept_table self v table.old) }
    {
        let nums = self.keep(table, v);
        if self.field < self.last {
            return Took {
                what: What::More,
                reader: self.onward(nums),
            };
        }
        self.ended(nums, table, v)
    }

    // With another part of its number read.
    fn with_part(self, part: Part) -> Reader
        ensures { result ≡ with_part self part }
    {
        Reader { part, ..self }
    }

    // What the bytes of a number made of it.
    #[tactic(auto, unfolding(crate::specs::Take::fed_took, crate::specs::Take::fed_table))]
    fn take_fed(self, table: &mut [u32], fed: Fed) -> Took
        ensures { (result ≡ fed_took self table.old fed) × (table.new ≡ fed_table self table.old fed) }
    {
        match fed {
            Fed::More(part) => Took {
                what: What::More,
                reader: self.with_part(part),
            },
            Fed::Done(v) => self.numbered(table, v),
            Fed::Bad => Took {
                what: What::Fault,
                reader: self,
            },
        }
    }

    // The bytes of a number, as far as it or the piece goes.
    fn take_number(self, table: &mut [u32], ahead: Ahead<'_>) -> Moved
        requires { is_bytes self.stage ≡ false }
        ensures { (l : List ℕ) → Goes self table.old l ahead.entry.piece.now ahead.entry.from result table.new l }
    {
        let scan = numerals::feed_all(self.part, ahead.piece, ahead.from);
        let took = self.with_part(scan.part).take_fed(table, scan.fed);
        Moved {
            what: took.what,
            reader: took.reader,
            next: scan.next,
        }
    }

    // How many bytes of a call's buffer are to come: one at the least, since its last comes next or later.
    fn bytes_left(self) -> usize
        ensures { result ≡ bytes_left self }
    {
        self.last.saturating_sub(self.field) as usize + 1
    }

    // The bytes of a call's buffer, as far as it or the piece goes.
    fn take_bytes(self, buf: &mut [u8], ahead: Ahead<'_>) -> Moved
        requires { is_bytes self.stage ≡ true }
        ensures { (t : List ℕ) → Goes self t buf.old ahead.entry.piece.now ahead.entry.from result t buf.new }
    {
        let Ahead { piece, from } = ahead;
        let at = self.field as usize;
        let left = self.bytes_left();
        let come = piece.len() - from;
        if come < left {
            words::put_bytes(buf, at, &piece[from..]);
            return Moved {
                what: What::More,
                reader: self.further(come),
                next: piece.len(),
            };
        }
        words::put_bytes(buf, at, &piece[from..from + left]);
        Moved {
            what: What::Call,
            reader: at_call(self.nums),
            next: from + left,
        }
    }

    // In a call's buffer.
    fn is_bytes(self) -> bool
        ensures { result ≡ is_bytes self.stage }
    {
        self.stage == Stage::Bytes
    }

    // Some bytes of a piece, from a place on.
    fn take_some(self, table: &mut [u32], buf: &mut [u8], ahead: Ahead<'_>) -> Moved
        ensures { Goes self table.old buf.old ahead.entry.piece.now ahead.entry.from result table.new buf.new }
    {
        if self.is_bytes() {
            self.take_bytes(buf, ahead)
        } else {
            self.take_number(table, ahead)
        }
    }
}

// The bytes of a piece from a place on, up to the end of the configuration or of a call, a fault, or the piece's end. (No `for`: each stretch says where the next begins.)
pub fn advance(r: Reader, table: &mut [u32], buf: &mut [u8], s: &[u8], from: usize) -> Moved
    ensures { Advances (advance r table.old buf.old (drop from s.now) from) result table.new buf.new }
{
    let mut reader = r;
    let mut i = from;
    while i < s.len() {
        let ahead = Ahead { piece: s, from: i };
        let m = reader.take_some(table, buf, ahead);
        if m.what != What::More {
            return m;
        }
        reader = m.reader;
        i = m.next;
    }
    Moved {
        what: What::More,
        reader,
        next: i,
    }
}
