// What a process holds: identifiers of messages' senders, and entries for files and segments. A descriptor may hold a subtype in a file's place.
ghost use Rattle.std.specs.Prelude.{◌≡◌, ℕ, ◌+◌, ◌*◌, ◌<◌, ◌≤◌, true, ◌&&◌, length, if◌then◌else◌, ◌≢◌, slice_index};
ghost use Rattle.rules.specs.Words.{all_below, count_below};
ghost use Rattle.rules.specs.Claim.{test};
ghost use Rattle.rules.specs.Layout.{max_cells, max_slots, entries, slots, cell_of};
ghost use Rattle.rules.specs.Seid.{class, class_of, index_of};
ghost use Rattle.rules.specs.WellFormed.{valid_use, write_use, held_ok, subtype_entry_ok, holds_subtype, entry_ok};
ghost use Rattle.layout.specs.Kinds.{kind_of};
ghost use Rattle.table.specs.Frame.{conf, words};
ghost use Rattle.table.specs.Entries.{held_word, right_at, Squeezed, names, Countable, Counts};

use crate::entry::Entry;
use crate::found::Found;
use crate::row::Row;
use crate::{places, subtypes};
use layout::Kind;
use rules::{LIVE, SERIAL};

fn write_use(kind: Kind, u: u32) -> bool
    ensures { result ≡ write_use (kind_of kind) u }
{
    match kind {
        Kind::Process => u == 1,
        Kind::Segment => rights::asks_write(u),
        Kind::File => modes::writes(u),
    }
}

// A process of the cell mine, as one that holds objects of a kind. What judges its entries is compiled where it is called: there the kind is known, and nothing of the
// holder is fetched anew for each entry.
#[derive(Clone, Copy)]
pub(crate) struct Holder<'a> {
    pub(crate) found: Found<'a>,
    pub(crate) kind: Kind,
    pub(crate) mine: usize,
    ghost mine_is_cell: { mine < max_cells },
}

impl Holder<'_> {
    // Whether it may hold s, which is to name an object.
    pub(crate) fn may_hold(&self, s: u32) -> bool
        ensures { result ≡ test (held_ok (conf self.now.found.frame) (words self.now.found.frame) (kind_of self.now.kind) self.now.mine s) }
    {
        let frame = self.found.frame;
        let i = places::index_in(self.kind, s);
        if frame.slots(self.kind) <= i {
            return false;
        }
        let at = frame.record_at(self.kind, i);
        let cell = self.found.cell(self.kind, i);
        let serial = layout::serial_of(s);
        (0 < serial) & ((serial <= frame.t[at + SERIAL]) & self.found.flows(cell, self.mine))
    }

    // The second word of an entry: modes, or access. No entry holds a process.
    fn valid_use(&self, u: u32) -> bool
        ensures { result ≡ valid_use (kind_of self.now.kind) u }
    {
        match self.kind {
            Kind::Process => u == 0,
            Kind::Segment => rights::valid_access(u),
            Kind::File => modes::valid_in(self.found.valid, u),
        }
    }

    // A used entry for the object in slot i, which is of that cell. The tests are gathered without a branch.
    #[inline(always)]
    fn entry_ok(&self, cell: usize, i: usize, e: Entry) -> bool
        requires slot { i < slots (conf self.now.found.frame) (kind_of self.now.kind) }
        requires held { (class_of e.held ≡ class (kind_of self.now.kind)) × (index_of e.held ≡ i) × (cell ≡ cell_of (conf self.now.found.frame) (kind_of self.now.kind) i) × (cell < max_cells) }
        ensures { result ≡ test (entry_ok (conf self.now.found.frame) (words self.now.found.frame) (kind_of self.now.kind) self.now.mine e.held e.used) }
    {
        let frame = self.found.frame;
        let at = frame.record_at(self.kind, i);
        let own = cell == self.mine;
        let serial = layout::serial_of(e.held);
        let held = (0 < serial)
            & ((serial <= frame.t[at + SERIAL]) & self.found.flows(cell, self.mine));
        let current = !own | ((frame.t[at + LIVE] == 1) & (frame.t[at + SERIAL] == serial));
        held & (current & (self.valid_use(e.used) & (!write_use(self.kind, e.used) | own)))
    }

    // A descriptor that holds a subtype. It is held as a file is, but that no record is asked: a subtype has none, and is there for good.
    fn held_subtype_ok(self, e: Entry) -> bool
        ensures { result ≡ test (subtype_entry_ok (conf self.entry.found.frame) self.entry.mine e.held e.used) }
    {
        let frame = self.found.frame;
        if !subtypes::named(frame.n, e.held) {
            return false;
        }
        let cell = frame.subtype_cell(layout::index_of(e.held));
        self.found.flows(cell, self.mine)
            & (modes::valid_in(self.found.valid, e.used)
                & (!modes::writes(e.used) | (cell == self.mine)))
    }

    // An entry that holds no object of the kind. Only a descriptor may be right then, where it holds a subtype. This lies off the way that most entries go.
    fn subtype_entry_ok(self, e: Entry) -> bool
        ensures { result ≡ holds_subtype (kind_of self.entry.kind) e.held && test (subtype_entry_ok (conf self.entry.found.frame) self.entry.mine e.held e.used) }
    {
        match self.kind {
            Kind::Process | Kind::Segment => false,
            Kind::File => self.held_subtype_ok(e),
        }
    }

    // A used entry, judged, and counted for its slot if the object is of the own cell. A subtype has no slot, and is counted for none.
    #[inline(always)]
    fn judge_entry(&self, e: Entry, counts: &mut [u16]) -> bool
        requires used { e.held ≡ 0 → e.used ≢ 0 }
        requires counts_len { (length counts.old ≡ max_slots) × ((i : ℕ) → i < max_slots → slice_index counts.old i < 65535) }
        ensures value { result ≡ test (entry_ok (conf self.now.found.frame) (words self.now.found.frame) (kind_of self.now.kind) self.now.mine e.held e.used) }
        ensures counts { Counts (λ i. (if names (conf self.now.found.frame) (kind_of self.now.kind) self.now.mine e.held i then 1 else 0)) 1 result counts.old counts.new }
    {
        let i = places::index_in(self.kind, e.held);
        if self.found.frame.slots(self.kind) <= i {
            return self.subtype_entry_ok(e);
        }
        let cell = self.found.cell(self.kind, i);
        counts[i] += u16::from(cell == self.mine);
        self.entry_ok(cell, i, e)
    }

    // The entries of a row, of which these are used. Those for objects of the own cell are counted, slot by slot.
    #[inline(always)]
    pub(crate) fn entries_ok(&self, row: Row, used: &[Entry], counts: &mut [u16]) -> bool
        requires countable { Countable counts.old }
        requires used_are { Squeezed row.t.now row.from used.now (length used.now) entries }
        ensures value { result ≡ all_below entries (right_at (conf self.now.found.frame) (words self.now.found.frame) (kind_of self.now.kind) self.now.mine row.entry.t.now row.entry.from) }
        ensures counts { Counts (λ i. count_below entries (λ d. names (conf self.now.found.frame) (kind_of self.now.kind) self.now.mine (held_word row.entry.t.now row.entry.from d) i)) entries result counts.old counts.new }
    {
        let mut ok = true;
        for e in used {
            ok &= self.judge_entry(*e, counts);
        }
        ok
    }
}
