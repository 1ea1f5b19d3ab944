// Processes: their parents, their entries, their messages and their pages.
ghost use Rattle.std.specs.Prelude.{◌≡◌, ◌+◌, ◌*◌, ◌<◌, ◌≤◌, true, ◌&&◌, length};
ghost use Rattle.rules.specs.Words.{all_below, count_below};
ghost use Rattle.rules.specs.Claim.{test, each};
ghost use Rattle.rules.specs.Layout.{entries, messages, parent, process, segment, file, slots, cell_of, at};
ghost use Rattle.rules.specs.WellFormed.{parent_ok, message_ok, process_ok};
ghost use Rattle.layout.specs.Kinds.{kind_of};
ghost use Rattle.table.specs.Frame.{conf, words};
ghost use Rattle.table.specs.Entries.{held_word, names, right_at, held_once_at, Countable, Counts, Counted, Tally};

use crate::entry::Entry;
use crate::found::Found;
use crate::held::Holder;
use crate::row::Row;
use crate::{pages, places, records};
use layout::Kind;
use rules::{
    ENTRIES, LIVE, MAX_BITS, MESSAGE_WORDS, MESSAGES, MESSAGES_AT, PARENT, PROCESS_BITS, QUEUE,
};
use words::wide;

// The word of a message that names its sender.
const SENDER: usize = 0;

// The word of a process that is zero.
const ZERO_7: usize = 7;

impl Found<'_> {
    fn parent_ok(&self, p: usize) -> bool
        requires { p < slots (conf self.now.frame) process }
        ensures { result ≡ test (parent_ok (conf self.now.frame) (cell_of (conf self.now.frame) process p) (words self.now.frame (at process p parent))) }
    {
        let at = self.frame.record_at(Kind::Process, p);
        let s = self.frame.t[at + PARENT];
        if s == 0 {
            return true;
        }
        let i = places::index_in(Kind::Process, s);
        if self.frame.slots(Kind::Process) <= i {
            return false;
        }
        (0 < layout::serial_of(s)) & (self.cell(Kind::Process, i) == self.cell(Kind::Process, p))
    }

    // A message in the queue has a sender that may be held; one past it is zero.
    fn message_ok(&self, p: usize, m: usize) -> bool
        requires { (p < slots (conf self.now.frame) process) × (m < messages) }
        ensures { result ≡ test (message_ok (conf self.now.frame) (words self.now.frame) p m) }
    {
        let t = self.frame.t;
        let at = self.frame.record_at(Kind::Process, p);
        let from = MESSAGES_AT + MESSAGE_WORDS * m;
        if m < wide(t[at + QUEUE]) {
            let holder = Holder {
                found: *self,
                kind: Kind::Process,
                mine: self.cell(Kind::Process, p),
            };
            return holder.may_hold(t[at + (from + SENDER)]);
        }
        records::zeros(t, at, from, MESSAGE_WORDS)
    }

    fn messages_ok(&self, p: usize) -> bool
        requires { p < slots (conf self.now.frame) process }
        ensures { result ≡ test (each messages (message_ok (conf self.now.frame) (words self.now.frame) p)) }
    {
        // Most queues are empty: then all their words are looked at together.
        let t = self.frame.t;
        let at = self.frame.record_at(Kind::Process, p);
        if t[at + QUEUE] == 0 {
            return records::zeros(t, at, MESSAGES_AT, MESSAGES * MESSAGE_WORDS);
        }
        let mut ok = true;
        for m in 0..MESSAGES {
            ok &= self.message_ok(p, m);
        }
        ok
    }

    // The entries of process p for objects of the kind: each is right, and of segments it holds none twice.
    #[inline(always)]
    fn held_ok(&self, kind: Kind, p: usize, row: Row, counts: &mut [u16]) -> bool
        requires { (p < slots (conf self.now.frame) process) × Countable counts.old }
        ensures value { result ≡ all_below entries (right_at (conf self.now.frame) (words self.now.frame) (kind_of kind) (cell_of (conf self.now.frame) process p) row.entry.t.now row.entry.from) && held_once_at (kind_of kind) row.entry.t.now row.entry.from }
        ensures counts { Counts (λ i. count_below entries (λ d. names (conf self.now.frame) (kind_of kind) (cell_of (conf self.now.frame) process p) (held_word row.entry.t.now row.entry.from d) i)) entries result counts.old counts.new }
    {
        let mut list = [Entry::EMPTY; ENTRIES];
        let n = row.used(&mut list);
        let used = &list[..n];
        let holder = Holder {
            found: *self,
            kind,
            mine: self.cell(Kind::Process, p),
        };
        let ok = holder.entries_ok(row, used, counts);
        match kind {
            Kind::Segment => ok & row.held_once(used),
            _ => ok,
        }
    }

    // A process, live or free. The entries of its own cell that it holds are counted, slot by slot.
    fn process_ok(&self, p: usize, references: &mut [u16], opens: &mut [u16]) -> bool
        requires shaped { p < slots (conf self.now.frame) process }
        requires countable { Countable references.old × Countable opens.old }
        ensures value { result ≡ test (process_ok (conf self.now.frame) (words self.now.frame) p) }
        ensures counted { result ≡ true → Counted (conf self.now.frame) (words self.now.frame) segment p references.old references.new }
        ensures counted_2 { result ≡ true → Counted (conf self.now.frame) (words self.now.frame) file p opens.old opens.new }
    {
        let t = self.frame.t;
        let at = self.frame.record_at(Kind::Process, p);
        if t[at + LIVE] == 1 {
            let descriptors = Row {
                t,
                from: self.frame.n.entry_at(Kind::File, p as u32, 0),
            };
            let designators = Row {
                t,
                from: self.frame.n.entry_at(Kind::Segment, p as u32, 0),
            };
            let alive = self.parent_ok(p)
                & ((wide(t[at + QUEUE]) <= MESSAGES)
                    & ((t[at + PROCESS_BITS] <= MAX_BITS)
                        & ((t[at + ZERO_7] == 0)
                            & (self.held_ok(Kind::File, p, descriptors, opens)
                                & (self.held_ok(Kind::Segment, p, designators, references)
                                    & (self.messages_ok(p) & pages::pages_ok(t, at)))))));
            return records::record_ok(t, Kind::Process, at, alive);
        }
        records::record_ok(t, Kind::Process, at, true)
    }

    // Every process, in one pass that also counts the own-cell entries for each segment and file. It ends at the first that is wrong. The two lists of counts stand apart:
    // each is handed on by itself, to the entries that are counted in it and to the objects that it is compared with.
    pub(crate) fn processes_ok(&self, references: &mut [u16], opens: &mut [u16]) -> bool
        requires { Tally (conf self.now.frame) (words self.now.frame) segment 0 references.old × Tally (conf self.now.frame) (words self.now.frame) file 0 opens.old }
        ensures value { result ≡ test (each (slots (conf self.now.frame) process) (process_ok (conf self.now.frame) (words self.now.frame))) }
        ensures tally_2 { result ≡ true → Tally (conf self.now.frame) (words self.now.frame) segment (slots (conf self.now.frame) process) references.new }
        ensures tally_3 { result ≡ true → Tally (conf self.now.frame) (words self.now.frame) file (slots (conf self.now.frame) process) opens.new }
    {
        for p in 0..self.frame.slots(Kind::Process) {
            if !self.process_ok(p, references, opens) {
                return false;
            }
        }
        true
    }
}
