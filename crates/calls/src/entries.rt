// Entries, and the records of the objects that they hold: taken up, given up, made, freed.
ghost use Rattle.std.specs.Prelude.{◌≡◌, true, ◌+◌, ◌*◌, ◌≤◌, ◌<◌, ◌^◌, length, get_or, set, replicate};
ghost use Rattle.std.proofs.lemmas.List.Edits.{sets};
ghost use Rattle.rules.specs.Layout.{process, record_words, configuration, cell_of, owner, entries, holders};
ghost use Rattle.rules.specs.Rule.{write};
ghost use Rattle.rules.specs.Find.{given_up, kept};
ghost use Rattle.layout.specs.Kinds.{kind_of};
ghost use Rattle.calls.specs.World.{Known, words_of, holdable};
ghost use Rattle.calls.specs.Entries.{entry_of, entry_from, freed_at, less_at, given_up_at, taken_up_at, four_at, made_at};

use crate::Footing;
use crate::base::read;
use crate::pages::clear_pages;
use crate::room::cell_of;
use layout::{Header, Kind, index_of, is_seid};
use rules::{BITS, LINKS, LIVE, OWNER};
use words::{put, word};

// The two words of an entry: what it holds, and its use.
#[derive(Clone, Copy)]
pub(crate) struct Entry {
    pub held: u32,
    pub used: u32,
}

// Entry d of process p for objects of the kind.
pub(crate) fn entry_of(t: &[u32], n: Header, kind: Kind, p: u32, d: u32) -> Entry
    requires { Known t.now n × (holdable (kind_of kind) ≡ true) }
    ensures { result ≡ entry_of (words_of t.now) (kind_of kind) p d }
{
    let at = n.entry_at(kind, p, d);
    let held = word(t, at);
    let used = word(t, at + 1);
    Entry { held, used }
}

// Entry d of the entries that begin at a place. Its words are read without a test: a search reads every entry of a cell.
pub(crate) fn entry_from(t: &[u32], first: usize, d: usize) -> Entry
    requires { (d < entries) × (first + 2 * entries ≤ length t.now) }
    ensures { result ≡ entry_from t.now first d }
{
    let at = first + 2 * d;
    let held = t[at];
    let used = t[at + 1];
    Entry { held, used }
}

// n zeros from a place on; past the table's end nothing is stored, so it is no slice's fill.
pub(crate) fn clear(t: &mut [u32], from: usize, n: usize)
    requires { from + n < 2 ^ 50 }
    ensures { t.new ≡ sets t.old from (replicate n 0) }
{
    for i in 0..n {
        put(t, from + i, 0);
    }
}

// The record of n words that begins at a place becomes zero but for its serial.
pub(crate) fn free_record(t: &mut [u32], from: usize, n: usize)
    requires { (from < 2 ^ 44) × (owner < n) × (n ≤ record_words process) }
    ensures { t.new ≡ freed_at t.old from n }
{
    put(t, from + LIVE, 0);
    clear(t, from + OWNER, n - OWNER);
}

// An object of the kind, which has n holders, has one less: it is freed, or its count falls. Its record begins at a place.
fn less(t: &mut [u32], kind: Kind, from: usize, n: u32, kept: bool)
    requires { from < 2 ^ 44 }
    ensures { t.new ≡ less_at t.old (kind_of kind) from n kept }
{
    if (n == 1) & !kept {
        free_record(t, from, kind.record_words());
    } else {
        put(t, from + kind.holders_word(), n.saturating_sub(1));
    }
}

// The entry at a place is given up. Where the object that it holds, with n holders, is of the holder's cell, that has one less.
fn give_up(t: &mut [u32], kind: Kind, entry: usize, object: usize, n: u32, own: bool, kept: bool)
    requires { (entry < 2 ^ 45) × (object < 2 ^ 44) }
    ensures { t.new ≡ given_up_at t.old (kind_of kind) entry object n own kept }
{
    enter(t, entry, 0, 0);
    if own {
        less(t, kind, object, n, kept);
    }
}

// A file that has links stays without holders.
fn is_kept(t: &[u32], n: Header, kind: Kind, i: u32) -> bool
    requires { Known t.now n }
    ensures { result ≡ kept (words_of t.now) (kind_of kind) i }
{
    match kind {
        Kind::Process => true,
        Kind::Segment => false,
        Kind::File => read(t, n, Kind::File, i, LINKS) != 0,
    }
}

// Entry d of process p, of the caller's cell, which holds s, is given up, and with it the pages that name it. What is known of the object is read first. A descriptor that
// holds a subtype, which has the form of no file's identifier, counts for none.
pub(crate) fn give_up_entry(t: &mut [u32], on: Footing<'_>, kind: Kind, p: u32, d: u32, s: u32)
    requires { Known t.old on.n × (on.me.cell ≡ cell_of (configuration t.old) process p) × (holdable (kind_of kind) ≡ true) }
    ensures { t.new ≡ write (configuration t.old) t.old (given_up (configuration t.old) (words_of t.old) (kind_of kind) p d s) }
{
    let i = index_of(s);
    let formed = is_seid(kind.class(), on.n.slots(kind), s);
    let own = formed & (cell_of(t, on.n, kind, i) == on.me.cell);
    let kept = is_kept(t, on.n, kind, i);
    let entry = on.n.entry_at(kind, p, d);
    let object = on.n.record_at(kind, i);
    let holders = read(t, on.n, kind, i, kind.holders_word());
    clear_pages(t, on.n, kind, p, d);
    give_up(t, kind, entry, object, holders, own, kept);
}

// Four words from a place on.
pub(crate) fn put_four(t: &mut [u32], i: usize, a: u32, b: u32, c: u32, d: u32)
    requires { i < 2 ^ 46 }
    ensures { t.new ≡ four_at t.old i a b c d }
{
    put(t, i, a);
    put(t, i + 1, b);
    put(t, i + 2, c);
    put(t, i + 3, d);
}

// The first eight words of the record of a new segment or file, which begins at a place; x and y are the words behind the bits, and the eighth counts the holders. A file's
// ninth, its subtype, is put by create.
pub(crate) fn make(
    t: &mut [u32],
    from: usize,
    serial: u32,
    owner: u32,
    group: u32,
    bits: u32,
    x: u32,
    y: u32,
    holders: u32,
)
    requires { from < 2 ^ 44 }
    ensures { t.new ≡ made_at t.old from serial owner group bits x y holders }
{
    put_four(t, from, 1, serial, owner, group);
    put_four(t, from + BITS, bits, x, y, holders);
}

// The entry at a place holds s, used so.
pub(crate) fn enter(t: &mut [u32], entry: usize, s: u32, u: u32)
    requires { entry < 2 ^ 45 }
    ensures { t.new ≡ set (set t.old entry s) (entry + 1) u }
{
    put(t, entry, s);
    put(t, entry + 1, u);
}

// The entry at a place comes to hold s, used so. Where the object is of the holder's cell, that has one holder more.
pub(crate) fn take_up(
    t: &mut [u32],
    kind: Kind,
    entry: usize,
    s: u32,
    u: u32,
    object: usize,
    own: bool,
)
    requires { (entry < 2 ^ 45) × (object < 2 ^ 44) × (get_or t.old (object + holders (kind_of kind)) 0 + 1 < 2 ^ 32) }
    ensures { t.new ≡ taken_up_at t.old (kind_of kind) entry s u object own }
{
    let count = object + kind.holders_word();
    let n = word(t, count) + 1;
    enter(t, entry, s, u);
    if own {
        put(t, count, n);
    }
}
