// Cells and their runs of slots; room for new objects and entries.
ghost use Rattle.std.specs.Prelude.{◌≡◌, true, ◌+◌, ◌*◌, ◌≤◌, ◌<◌, ◌^◌, length};
ghost use Rattle.rules.specs.Layout.{process, cells, max_slots, cell_words, record_words, cell_word, configuration, configuration_words, cell_of};
ghost use Rattle.layout.specs.Kinds.{kind_of};
ghost use Rattle.calls.specs.World.{Known, words_of, first_by, cell_by, free_at, holdable};
ghost use Rattle.calls.specs.Seen.{IsRun, slot_found, entry_found};

use layout::{Header, Kind};
use rules::{CELL_WORDS, ENTRIES, HEADER_WORDS, LIVE, MAX_SERIAL, SERIAL};
use words::{first, wide, word};

// The cell, of n, whose run of slots of a kind holds slot i, or n where none does. k is the word of a cell's record that counts these slots. The runs of all cells are
// summed: a loop that leaves at the slot's cell ends where a processor can't foresee it, which takes longer than sixteen sums.
pub(crate) fn cell_by(t: &[u32], n: u32, k: usize, i: u32) -> u32
    requires n_value { (n ≡ cells (configuration t.now)) × (k < cell_words) × (first_by (configuration t.now) k (cells (configuration t.now)) ≤ max_slots) }
    requires t_in_bounds { configuration_words (configuration t.now) ≤ length t.now }
    ensures { result ≡ cell_by (configuration t.now) k i }
{
    let mut end: u32 = 0;
    let mut cell: u32 = 0;
    for c in 0..n {
        end += t[HEADER_WORDS + CELL_WORDS * wide(c) + k];
        cell += u32::from(end <= i);
    }
    cell
}

pub(crate) fn cell_of(t: &[u32], n: Header, kind: Kind, i: u32) -> u32
    requires { Known t.now n }
    ensures { result ≡ cell_of (configuration t.now) (kind_of kind) i }
{
    cell_by(t, n.cells, kind.cell_word(), i)
}

// Word k of a cell's record.
pub(crate) fn in_cell(t: &[u32], n: Header, c: u32, k: usize) -> u32
    requires { Known t.now n × (c < n.cells) × (k < cell_words) }
    ensures { result ≡ cell_word (configuration t.now) c k }
{
    word(t, HEADER_WORDS + CELL_WORDS * wide(c) + k)
}

// The first slot of a cell's run; k is the word of a cell's record that counts its slots.
fn first_slot(t: &[u32], n: Header, c: u32, k: usize) -> u32
    requires { Known t.now n × (c ≤ n.cells) × (k < cell_words) × (first_by (configuration t.now) k (cells (configuration t.now)) ≤ max_slots) }
    ensures { (result ≡ first_by (configuration t.now) k c) × (result ≤ max_slots) }
{
    let mut from: u32 = 0;
    for i in 0..c {
        from += in_cell(t, n, i, k);
    }
    from
}

// The slots of a kind that a cell has: the first of them, and how many they are.
#[derive(Clone, Copy)]
pub(crate) struct Run {
    pub from: u32,
    pub count: u32,
}

pub(crate) fn run_of(t: &[u32], n: Header, kind: Kind, c: u32) -> Run
    requires { Known t.now n × (c < n.cells) }
    ensures { IsRun (configuration t.now) (kind_of kind) c result }
{
    let k = kind.cell_word();
    Run {
        from: first_slot(t, n, c, k),
        count: in_cell(t, n, c, k),
    }
}

// Of n slots from one on, that which isn't live and has the smallest serial below 65535, the lowest among equals; the end of them where there is none. The records begin
// at base.
fn free_at(t: &[u32], base: usize, size: usize, n: u32, from: u32) -> u32
    requires { (base < 2 ^ 43) × (size ≤ record_words process) × (from + n < 2 ^ 32) }
    ensures { result ≡ free_at t.now base size n from }
{
    let end = from + n;
    let mut best = end;
    let mut least = MAX_SERIAL;
    for i in from..end {
        let at = base + size * wide(i);
        let serial = word(t, at + SERIAL);
        let better = (word(t, at + LIVE) == 0) & (serial < least);
        best = first(better, i, best);
        least = first(better, serial, least);
    }
    best
}

// "The search for a free slot shall take the one with the smallest serial, and the lowest index among equals": in the run of a cell.
pub(crate) fn free_slot(t: &[u32], n: Header, kind: Kind, cell: u32) -> Option<u32>
    requires { Known t.now n × (cell < n.cells) }
    ensures { result ≡ slot_found (configuration t.now) (words_of t.now) (kind_of kind) cell }
{
    let run = run_of(t, n, kind, cell);
    let i = free_at(t, n.base(kind), kind.record_words(), run.count, run.from);
    if i < run.from + run.count {
        Some(i)
    } else {
        None
    }
}

// "New entries use the lowest empty place", if there is one.
pub(crate) fn free_entry(t: &[u32], n: Header, kind: Kind, p: u32) -> Option<u32>
    requires { Known t.now n × (holdable (kind_of kind) ≡ true) }
    ensures { result ≡ entry_found (words_of t.now) (kind_of kind) p }
{
    let from = n.entry_at(kind, p, 0);
    (0..ENTRIES as u32).find(|&d| word(t, from + 2 * wide(d)) == 0)
}
