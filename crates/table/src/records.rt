// What every record has.
ghost use Rattle.std.specs.Prelude.{◌≡◌, ◌+◌, ◌≤◌, length, nat_eq, slice_index};
ghost use Rattle.rules.specs.Words.{all_below};
ghost use Rattle.rules.specs.Claim.{test, is};
ghost use Rattle.rules.specs.Layout.{record_words};
ghost use Rattle.rules.specs.WellFormed.{record_ok};
ghost use Rattle.layout.specs.Kinds.{kind_of};
ghost use Rattle.table.specs.Entries.{record_at};

use layout::Kind;
use rules::{GROUP, LIVE, MAX_OWNER, MAX_SERIAL, OWNER, SERIAL};

// Whether n words from the word `from` of the record at `at` on are zero: they are put together and looked at once, so that several are read at a time.
pub(crate) fn zeros(t: &[u32], at: usize, from: usize, n: usize) -> bool
    requires { at + (from + n) ≤ length t.now }
    ensures { result ≡ all_below n (λ j. nat_eq (slice_index t.now (at + (from + j))) 0) }
{
    let mut all = 0;
    for w in &t[at + from..at + (from + n)] {
        all |= *w;
    }
    all == 0
}

// The record of a kind at `at`: free, and zero but for its serial; or live, and then `alive` says whether the rest is right.
pub(crate) fn record_ok(t: &[u32], kind: Kind, at: usize, alive: bool) -> bool
    requires { (at + record_words (kind_of kind) ≤ length t.now) × (8 ≤ record_words (kind_of kind)) }
    ensures { result ≡ test (record_ok (record_at t.now at) (kind_of kind) 0 (is alive)) }
{
    let live = t[at + LIVE];
    let serial = t[at + SERIAL];
    if live == 0 {
        return (serial <= MAX_SERIAL) & zeros(t, at, 2, kind.record_words() - 2);
    }
    let owned = (t[at + OWNER] <= MAX_OWNER) & ((t[at + GROUP] <= MAX_OWNER) & alive);
    (live == 1) & ((serial <= MAX_SERIAL) & ((1 <= serial) & owned))
}
