// The masks of open entries in the working slice: for a process and a file of its cell a word, with bit d for the process's descriptor d, if it names the file.
#![tactic(auto)]

ghost use Rattle.std.specs.Prelude.{◌≡◌, ◌&&◌, ◌+◌, ◌*◌, ◌%◌, ◌<◌, ◌≤◌, ◌^◌, eqb, get_or, length};
ghost use Rattle.rules.specs.Words.{all_below};
ghost use Rattle.rules.specs.Layout.{process, held_at, max_slots, entries};
ghost use Rattle.rules.specs.Layout as rules;
ghost use Rattle.layout.specs.Header.{record_of};
ghost use Rattle.marks.specs.Masks.{masks_at, clashes_here, met, row_met, marked, unmarked, masked, are_masks};

use layout::{Header, Kind, class_of, index_of};
use modes::clash;
use rules::{ENTRIES, FILE_CLASS, MAX_SLOTS, PROCESS_WORDS};
use words::{first, put, wide, word};

// A number past every mask.
const MASKS: u32 = 1 << ENTRIES;

// The bit of descriptor d.
fn power(d: usize) -> u32
    requires { d < entries }
    ensures { (result ≡ 2 ^ d) × (result < 2 ^ entries) }
{
    1 << d
}

// A descriptor comes to name the file whose mask is at a place.
pub fn mark(w: &mut [u32], at: u32, d: u32)
    ensures { w.new ≡ marked w.old at d }
{
    let place = wide(at);
    let mask = word(w, place);
    let bit = wide(d);
    if bit < ENTRIES && mask < MASKS {
        put(w, place, mask + power(bit));
    }
}

// It ceases to.
pub fn unmark(w: &mut [u32], at: u32, d: u32)
    ensures { w.new ≡ unmarked w.old at d }
{
    let place = wide(at);
    let mask = word(w, place);
    let bit = wide(d);
    if bit < ENTRIES {
        let taken = power(bit);
        if taken <= mask {
            put(w, place, mask - taken);
        }
    }
}

// Whether the lowest bit of x is there, and descriptor d, for which it stands, holds s with modes that clash with b.
fn bit_clash(t: &[u32], at: usize, x: u32, d: usize, s: u32, b: u32) -> bool
    requires { (at < 2 ^ 46) × (d < entries) }
    ensures { result ≡ (eqb (x % 2) 1 && clashes_here t.now at s b d) }
{
    x % 2 == 1 && (word(t, at + 2 * d) == s) & clash(word(t, at + (2 * d + 1)), b)
}

// Whether some descriptor that the mask names does; the process's descriptors begin at a place. Most masks are 0, and few have a high bit.
fn mask_clash(t: &[u32], at: usize, mask: u32, s: u32, b: u32) -> bool
    requires { at < 2 ^ 46 }
    ensures { result ≡ met t.now at s b entries mask 0 }
{
    let mut x = mask;
    for d in 0..ENTRIES {
        if x == 0 {
            return false;
        }
        if bit_clash(t, at, x, d, s, b) {
            return true;
        }
        x /= 2;
    }
    false
}

// Whether some descriptor that the masks of a file name, of the processes from one on, holds s with modes that clash with b.
pub fn row_clash(
    t: &[u32],
    n: Header,
    from: u32,
    count: u32,
    w: &[u32],
    at: u32,
    step: u32,
    s: u32,
    b: u32,
) -> bool
    ensures { result ≡ row_met t.now w.now (record_of n process from + held_at rules.file 0) count at step s b }
{
    let held = n.entry_at(Kind::File, from, 0);
    let row = wide(at);
    let width = wide(step);
    for i in 0..wide(count) {
        let mask = word(w, row + width * i);
        if mask_clash(t, held + PROCESS_WORDS * i, mask, s, b) {
            return true;
        }
    }
    false
}

// The masks of the process whose descriptors begin at a place, of every file that there may be: an index is below their number.
fn masks_of(t: &[u32], at: usize) -> [u32; MAX_SLOTS]
    requires { at < 2 ^ 46 }
    ensures { result ≡ masks_at t.now at max_slots 0 }
{
    let mut masks = [0u32; MAX_SLOTS];
    for d in 0..ENTRIES {
        let s = word(t, at + 2 * d);
        let i = wide(index_of(s));
        masks[i] += first(class_of(s) == FILE_CLASS, power(d), 0);
    }
    masks
}

// The masks of process p, of the files from one on, are made anew, by the table, and stored as far as there is room. The run (from, count) and the place (w, at) stay parameters
// of their own, here, in `are_masks` and in `row_clash`: calls and work name these functions, whose signatures may not change.
pub fn put_masks(t: &[u32], n: Header, p: u32, from: u32, count: u32, w: &mut [u32], at: u32)
    ensures { w.new ≡ masked t.now (record_of n process p + held_at rules.file 0) count from w.old at }
{
    let first_file = wide(from);
    let files = wide(count);
    let place = wide(at);
    if first_file + files <= MAX_SLOTS {
        let masks = masks_of(t, n.entry_at(Kind::File, p, 0));
        for (i, mask) in masks[first_file..first_file + files].iter().enumerate() {
            put(w, place + i, *mask);
        }
    }
}

// Whether the words at a place are those masks, as the table has them. It stays beside `put_masks`: `masks_of` is what the two share, and where there is no room the one stores
// what it can and the other says no, so that a form over both would be no plainer.
pub fn are_masks(t: &[u32], n: Header, p: u32, from: u32, count: u32, w: &[u32], at: u32) -> bool
    ensures { result ≡ are_masks t.now (record_of n process p + held_at rules.file 0) count from w.now at }
{
    let first_file = wide(from);
    let files = wide(count);
    let place = wide(at);
    if MAX_SLOTS < first_file + files {
        return false;
    }
    // No words are none, wherever they would stand.
    if files == 0 {
        return true;
    }
    if w.len() < place + files {
        return false;
    }
    let masks = masks_of(t, n.entry_at(Kind::File, p, 0));
    w[place..place + files] == masks[first_file..first_file + files]
}
