// The evening image and the morning reload: table and store as bytes, and back. A reload is no call: it takes history back.
#![tactic(auto)]

ghost use Rattle.std.specs.Prelude.{◌≡◌, ◌+◌, ◌≤◌, length, true, false, MatchOption};
ghost use Rattle.rules.specs.Claim.{test};
ghost use Rattle.rules.specs.WellFormed.{well_formed};
ghost use Rattle.rules.specs.Replay.{encoded, numbers, took, bad};
ghost use Rattle.rules.specs.Image.{word_bytes, image_length, image_answer, image_out, read_back, reload_answer, reload_table, reload_store};
ghost use Rattle.output.specs.Wrote.{Wrote};
ghost use Rattle.image.specs.Largest.{most_words};

use numerals::{Fed, Part};
use rules::{MAX_CONFIGURATION_WORDS, MAX_SLOTS, SLOT_WORDS, XB_PARAM, XB_SZ, XB_TAB, XOK};

// The words of the largest table.
const MOST_WORDS: usize = MAX_CONFIGURATION_WORDS + SLOT_WORDS * MAX_SLOTS;

// Room for a table of some few slots: a small reload clears no more.
const FEW_WORDS: usize = 2048;

// How many bytes a number takes.
#[tactic(auto, using(crate::proofs::Lengths::ranges))]
fn number_length(v: u32) -> usize
    ensures exact { result ≡ length (encoded v) }
    ensures few { result ≤ 5 }
{
    match v {
        ..128 => 1,
        ..16384 => 2,
        ..2097152 => 3,
        ..268435456 => 4,
        _ => 5,
    }
}

// How many bytes the words of a table take.
fn words_length(t: &[u32]) -> usize
    requires { length t.now ≤ most_words }
    ensures { result ≡ length (word_bytes t.now) }
{
    t.iter().map(|w| number_length(*w)).sum()
}

// The words of a table from the front of a buffer on; answers the place past them.
fn put_words(out: &mut [u8], t: &[u32]) -> usize
    ensures { Wrote out.old 0 (word_bytes t.now) result out.new }
{
    let mut at = 0;
    for w in t {
        at = numerals::put_number(out, at, *w);
    }
    at
}

// The length of the image of a table and a store of that many bytes; none where the table is bad.
fn exact_length(t: &[u32], store_bytes: usize) -> Option<usize>
    ensures { MatchOption result (test (well_formed t.now store_bytes) ≡ false) (λ n.
        (test (well_formed t.now store_bytes) ≡ true) × (n ≡ length (word_bytes t.now) + store_bytes)) }
{
    if !table::check(t, store_bytes) {
        return None;
    }
    Some(words_length(t) + store_bytes)
}

// The same, with 0 for none.
pub fn image_length(t: &[u32], store_bytes: usize) -> usize
    ensures { result ≡ image_length t.now store_bytes }
{
    exact_length(t, store_bytes).unwrap_or(0)
}

// The image of a table and its store at the front of a buffer; or it is refused, and nothing is changed. (Answers are numbers, here and in reload:
// monitor_image and monitor_reload of the C interface hand them on.)
pub fn image(t: &[u32], store: &[u8], out: &mut [u8]) -> u32
    ensures value { result ≡ image_answer t.now store.now out.old }
    ensures out_after { out.new ≡ image_out t.now store.now out.old }
{
    let Some(n) = exact_length(t, store.len()) else {
        return XB_TAB;
    };
    if out.len() < n {
        return XB_SZ;
    }
    let at = put_words(out, t);
    words::put_bytes(out, at, store);
    XOK
}

// As many numbers as there are words, from the front of an image; answers the bytes past them.
fn read_words<'a>(words: &mut [u32], image: &'a [u8]) -> Option<&'a [u8]>
    ensures { MatchOption result (numbers (length words.old) image.now ≡ bad)
        (λ rest. numbers (length words.old) image.now ≡ took words.new rest.now) }
{
    let mut rest = image;
    for w in words.iter_mut() {
        let scan = numerals::feed_all(Part::START, rest, 0);
        let Fed::Done(v) = scan.fed else {
            return None;
        };
        *w = v;
        rest = &rest[scan.next..];
    }
    Some(rest)
}

// The table of an image, read into the words and judged there; answers the other bytes, where they are those of a store of that many.
fn read_back<'a>(words: &mut [u32], store_bytes: usize, image: &'a [u8]) -> Option<&'a [u8]>
    ensures { MatchOption result (read_back (length words.old) store_bytes image.now ≡ bad)
        (λ store. read_back (length words.old) store_bytes image.now ≡ took words.new store.now) }
{
    let rest = read_words(words, image)?;
    if rest.len() == store_bytes && table::check(words, store_bytes) {
        Some(rest)
    } else {
        None
    }
}

// The image is read into N words or fewer beside the table, and judged there; then only are table and store written.
fn reload_in<const N: usize>(t: &mut [u32], store: &mut [u8], image: &[u8]) -> u32
    requires room { length t.old ≤ N }
    requires few { N ≤ most_words }
    ensures value { result ≡ reload_answer t.old store.old image.now }
    ensures t_after { t.new ≡ reload_table t.old store.old image.now }
    ensures store_after { store.new ≡ reload_store t.old store.old image.now }
{
    let mut room = [0; N];
    let words = &mut room[..t.len()];
    let Some(rest) = read_back(words, store.len(), image) else {
        return XB_PARAM;
    };
    t.copy_from_slice(words);
    // Both are lent: by `put_bytes`, which says why.
    words::put_bytes(store, 0, rest);
    XOK
}

// Table and store as an image has them; or it is refused, and nothing is changed. A table longer than the largest is no table.
pub fn reload(t: &mut [u32], store: &mut [u8], image: &[u8]) -> u32
    ensures value { result ≡ reload_answer t.old store.old image.now }
    ensures t_after { t.new ≡ reload_table t.old store.old image.now }
    ensures store_after { store.new ≡ reload_store t.old store.old image.now }
{
    match t.len() {
        ..=FEW_WORDS => reload_in::<FEW_WORDS>(t, store, image),
        ..=MOST_WORDS => reload_in::<MOST_WORDS>(t, store, image),
        _ => XB_PARAM,
    }
}
