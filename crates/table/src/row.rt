// The entries of a process for objects of a kind, one after the other in the table: two words each.
ghost use Rattle.std.specs.Prelude.{◌≡◌, ◌+◌, ◌*◌, ◌<◌, ◌≤◌, length};
ghost use Rattle.rules.specs.Layout.{entries};
ghost use Rattle.table.specs.Entries.{held_word, entry_at, Squeezed};

use crate::entry::Entry;
use crate::records;
use rules::ENTRIES;

// They begin at the word `from` of the table t.
#[derive(Clone, Copy)]
pub(crate) struct Row<'a> {
    pub(crate) t: &'a [u32],
    pub(crate) from: usize,
    ghost within: { from + 2 * entries ≤ length t.now },
}

impl Row<'_> {
    // What entry d holds.
    pub(crate) fn held(self, d: usize) -> u32
        requires { d < entries }
        ensures { result ≡ held_word self.entry.t.now self.entry.from d }
    {
        self.t[self.from + 2 * d]
    }

    pub(crate) fn entry(self, d: usize) -> Entry
        requires { d < entries }
        ensures { result ≡ entry_at self.entry.t.now self.entry.from d }
    {
        Entry {
            held: self.held(d),
            used: self.t[self.from + (1 + 2 * d)],
        }
    }

    // Those that are used, in order, at the front of the list; and how many they are. That none is used is told at once; else no branch goes by what an entry holds: half of
    // the entries of a table in use are empty, and none can be foretold.
    pub(crate) fn used(self, list: &mut [Entry; ENTRIES]) -> usize
        ensures { Squeezed self.entry.t.now self.entry.from list.new result entries }
    {
        if records::zeros(self.t, self.from, 0, 2 * ENTRIES) {
            return 0;
        }
        let mut n = 0;
        for d in 0..ENTRIES {
            let e = self.entry(d);
            let empty = (e.held == 0) & (e.used == 0);
            list[n] = e;
            n += usize::from(!empty);
        }
        n
    }
}
