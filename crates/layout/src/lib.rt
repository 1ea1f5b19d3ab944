// Where the parts of a table lie, over the kind of object, and the parts of an identifier. The check, the calls and the session read tables by these alone.
#![tactic(auto)]

ghost use Rattle.std.specs.Prelude.{◌≡◌, ◌+◌, ◌*◌, ◌<◌, ◌^◌};
ghost use Rattle.rules.specs.Layout.{process, file, record_words, cell_slots_word, cell_words, held_at, bits, holders};
ghost use Rattle.rules.specs.Seid.{class, class_of, index_of, serial_of, is_seid};
ghost use Rattle.layout.specs.Kinds.{kind_of};
ghost use Rattle.layout.specs.Header.{header_of, slots_of, subtype_of, base_of, record_of};
ghost use Rattle.layout.specs.Hall.{cells_at};

use rules::{
    BITS, BLOCKS, CELL_FILES, CELL_PROCESSES, CELL_SEGMENTS, CELL_WORDS, DESCRIPTORS, DESIGNATORS,
    FILE_CLASS, FILE_WORDS, FILES, GUARD, HEADER_WORDS, MAX_CELLS, MAX_SLOTS, OPENS, PROCESS_BITS,
    PROCESS_CLASS, PROCESS_WORDS, PROCESSES, REFERENCES, SEGMENT_CLASS, SEGMENT_WORDS, SEGMENTS,
    SUBTYPE_WORDS, SUBTYPES,
};
use words::{wide, word};

// The three kinds of object.
#[derive(Clone, Copy)]
pub enum Kind {
    Process,
    Segment,
    File,
}

impl Kind {
    pub fn class(self) -> u32
        ensures { result ≡ class (kind_of self) }
    {
        match self {
            Kind::Process => PROCESS_CLASS,
            Kind::Segment => SEGMENT_CLASS,
            Kind::File => FILE_CLASS,
        }
    }

    pub fn record_words(self) -> usize
        ensures { result ≡ record_words (kind_of self) }
    {
        match self {
            Kind::Process => PROCESS_WORDS,
            Kind::Segment => SEGMENT_WORDS,
            Kind::File => FILE_WORDS,
        }
    }

    // The word of a cell that says how many slots of the kind it owns.
    pub fn cell_word(self) -> usize
        ensures { (result ≡ cell_slots_word (kind_of self)) × (result < cell_words) }
    {
        match self {
            Kind::Process => CELL_PROCESSES,
            Kind::Segment => CELL_SEGMENTS,
            Kind::File => CELL_FILES,
        }
    }

    // The word of a record that holds the owner bits.
    pub fn bits_word(self) -> usize
        ensures { result ≡ bits (kind_of self) }
    {
        match self {
            Kind::Process => PROCESS_BITS,
            Kind::Segment => BITS,
            Kind::File => BITS,
        }
    }

    // The word of a record that counts the entries for the object. No entry holds a process: the place is past its record.
    pub fn holders_word(self) -> usize
        ensures { result ≡ holders (kind_of self) }
    {
        match self {
            Kind::Process => PROCESS_WORDS,
            Kind::Segment => REFERENCES,
            Kind::File => OPENS,
        }
    }

    // Where the cells of the kind's slots begin in what the check hands on.
    pub fn cells_at(self) -> usize
        ensures { result ≡ cells_at (kind_of self) }
    {
        match self {
            Kind::Process => 0,
            Kind::Segment => MAX_SLOTS,
            Kind::File => 2 * MAX_SLOTS,
        }
    }
}

// What the check hands on of a table, in bytes: the cell of every slot, kind by kind; then the sixteen by sixteen table of which cell may flow to which, row by row.
pub const FLOWS_AT: usize = 3 * MAX_SLOTS;

pub const FLOWS: usize = MAX_CELLS * MAX_CELLS;

pub const HALL_BYTES: usize = FLOWS_AT + FLOWS;

// The header's numbers.
#[derive(Clone, Copy)]
pub struct Header {
    pub cells: u32,
    pub processes: u32,
    pub segments: u32,
    pub files: u32,
    pub blocks: u32,
    pub guard: u32,
    pub subtypes: u32,
}

// Of a slice that has no room for one: what is not there reads as 0.
fn short_header(t: &[u32]) -> Header
    ensures { result ≡ header_of t.now }
{
    Header {
        cells: word(t, 0),
        processes: word(t, PROCESSES),
        segments: word(t, SEGMENTS),
        files: word(t, FILES),
        blocks: word(t, BLOCKS),
        guard: word(t, GUARD),
        subtypes: word(t, SUBTYPES),
    }
}

// With one test for all of its words, where short_header has one for each: it is read at every call.
pub fn header_of(t: &[u32]) -> Header
    ensures { result ≡ header_of t.now }
{
    if t.len() < HEADER_WORDS {
        return short_header(t);
    }
    Header {
        cells: t[0],
        processes: t[PROCESSES],
        segments: t[SEGMENTS],
        files: t[FILES],
        blocks: t[BLOCKS],
        guard: t[GUARD],
        subtypes: t[SUBTYPES],
    }
}

impl Header {
    pub fn slots(self, kind: Kind) -> u32
        ensures { result ≡ slots_of self (kind_of kind) }
    {
        match kind {
            Kind::Process => self.processes,
            Kind::Segment => self.segments,
            Kind::File => self.files,
        }
    }

    // Where the words of subtype i begin; with i the number of subtypes, where the configuration ends.
    pub fn subtype_at(self, i: u32) -> usize
        ensures { (result ≡ subtype_of self i) × (result < 2 ^ 37) }
    {
        HEADER_WORDS + CELL_WORDS * wide(self.cells) + SUBTYPE_WORDS * wide(i)
    }

    // Where the records of a kind begin: the parts follow without gaps.
    pub fn base(self, kind: Kind) -> usize
        ensures { (result ≡ base_of self (kind_of kind)) × (result < 2 ^ 43) }
    {
        let processes = self.subtype_at(self.subtypes);
        let segments = processes + PROCESS_WORDS * wide(self.processes);
        let files = segments + SEGMENT_WORDS * wide(self.segments);
        match kind {
            Kind::Process => processes,
            Kind::Segment => segments,
            Kind::File => files,
        }
    }

    // Where the record of a slot begins.
    pub fn record_at(self, kind: Kind, i: u32) -> usize
        ensures { (result ≡ record_of self (kind_of kind) i) × (result < 2 ^ 44) }
    {
        let base = self.base(kind);
        match kind {
            Kind::Process => base + PROCESS_WORDS * wide(i),
            Kind::Segment => base + SEGMENT_WORDS * wide(i),
            Kind::File => base + FILE_WORDS * wide(i),
        }
    }

    // Where entry d of process p lies, for objects of a kind. No entry holds a process: the place is past the record.
    pub fn entry_at(self, kind: Kind, p: u32, d: u32) -> usize
        ensures { (result ≡ record_of self process p + held_at (kind_of kind) d) × (result < 2 ^ 45) }
    {
        let record = self.record_at(Kind::Process, p);
        match kind {
            Kind::Process => record + PROCESS_WORDS,
            Kind::Segment => record + (DESIGNATORS + 2 * wide(d)),
            Kind::File => record + (DESCRIPTORS + 2 * wide(d)),
        }
    }

    pub fn table_words(self) -> usize
        ensures { result ≡ record_of self file self.files }
    {
        self.record_at(Kind::File, self.files)
    }
}

// A class takes a seid's high byte, an index the next, a serial the low half.
pub const CLASS_UNIT: u32 = 16777216;

pub const INDEX_UNIT: u32 = 65536;

pub const BYTE: u32 = 256;

pub fn class_of(s: u32) -> u32
    ensures { result ≡ class_of s }
{
    s / CLASS_UNIT
}

pub fn index_of(s: u32) -> u32
    ensures { result ≡ index_of s }
{
    s / INDEX_UNIT % BYTE
}

pub fn serial_of(s: u32) -> u32
    ensures { result ≡ serial_of s }
{
    s % INDEX_UNIT
}

// Whether a word has the form of an identifier of a class, in a table of that size.
pub fn is_seid(class: u32, size: u32, s: u32) -> bool
    ensures { result ≡ is_seid class size s }
{
    (class_of(s) == class) & ((index_of(s) < size) & (0 < serial_of(s)))
}
