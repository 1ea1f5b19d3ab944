// No process holds one segment seid twice.
ghost use Rattle.std.specs.Prelude.{◌≡◌, ◌<◌, true, length, slice_index_or};
ghost use Rattle.rules.specs.Words.{all_below};
ghost use Rattle.rules.specs.Layout.{entries};
ghost use Rattle.table.specs.declared.entry.Entry.{Entry};
ghost use Rattle.table.specs.Entries.{held_word, Squeezed, keys, key_of, Apart, fresh};

use crate::entry::Entry;
use crate::row::Row;
use rules::ENTRIES;
use words::wide;

// An identifier's key: index and serial spread over a few numbers, so that two identifiers seldom share one.
const KEYS: usize = 256;

const SPREAD: usize = 67;

fn key(s: u32) -> usize
    ensures { (result ≡ key_of s) × (result < keys) }
{
    (wide(layout::index_of(s)) + SPREAD * wide(layout::serial_of(s))) % KEYS
}

// Whether the used entries' keys all differ: then so do the identifiers.
fn apart(used: &[Entry]) -> bool
    ensures { result ≡ true → (none : Entry) → Apart (λ j. (slice_index_or used.now j none).held) (length used.now) }
{
    let mut seen = [false; KEYS];
    let mut ok = true;
    for e in used {
        let k = key(e.held);
        ok &= !seen[k];
        seen[k] = true;
    }
    ok
}

impl Row<'_> {
    // Whether no entry before e holds what e holds.
    fn is_fresh(self, e: usize) -> bool
        requires { e < entries }
        ensures { result ≡ fresh (held_word self.entry.t.now self.entry.from) e }
    {
        let s = self.held(e);
        if s == 0 {
            return true;
        }
        for d in 0..e {
            if self.held(d) == s {
                return false;
            }
        }
        true
    }

    // Each entry against each before it. This lies off the way that most rows go.
    #[cold]
    fn all_fresh(self) -> bool
        ensures { result ≡ all_below entries (fresh (held_word self.entry.t.now self.entry.from)) }
    {
        let mut ok = true;
        for e in 0..ENTRIES {
            ok &= self.is_fresh(e);
        }
        ok
    }

    // Whether none is held twice. Where two keys fall together each is compared with each.
    pub(crate) fn held_once(self, used: &[Entry]) -> bool
        requires { Squeezed self.t.now self.from used.now (length used.now) entries }
        ensures { result ≡ all_below entries (fresh (held_word self.entry.t.now self.entry.from)) }
    {
        if apart(used) {
            return true;
        }
        self.all_fresh()
    }
}
