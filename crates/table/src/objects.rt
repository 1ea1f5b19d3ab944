// Segments and files: the records that the processes' entries hold and that count them.
ghost use Rattle.std.specs.Prelude.{◌≡◌, ◌<◌, ◌&&◌, ◌==◌};
ghost use Rattle.rules.specs.Claim.{test, each};
ghost use Rattle.rules.specs.Layout.{process, segment, file, slots, subtype_cell};
ghost use Rattle.rules.specs.Seid.{index_of, names_subtype};
ghost use Rattle.rules.specs.WellFormed.{segment_ok, file_subtype_ok, file_ok, own_entries};
ghost use Rattle.layout.specs.Kinds.{kind_of};
ghost use Rattle.table.specs.Frame.{conf, words};
ghost use Rattle.table.specs.Entries.{object_ok, Tally};

use crate::found::Found;
use crate::{records, subtypes};
use layout::Kind;
use rules::{
    BITS, LINKS, MAX_BITS, MAX_LINKS, MAX_SEGMENT, OPENS, REFERENCES, SEGMENT_UNIT, SHARABLE, SIZE,
    SUBTYPE,
};
use words::wide;

impl Found<'_> {
    // A segment; held is how many entries of its own cell hold it.
    fn segment_ok(&self, s: usize, held: u32) -> bool
        requires { (s < slots (conf self.now.frame) segment) × (held ≡ own_entries (conf self.now.frame) (words self.now.frame) segment s) }
        ensures { result ≡ test (segment_ok (conf self.now.frame) (words self.now.frame) s) }
    {
        let t = self.frame.t;
        let at = self.frame.record_at(Kind::Segment, s);
        let size = t[at + SIZE];
        let references = t[at + REFERENCES];
        let sized = (size % SEGMENT_UNIT == 0) & ((SEGMENT_UNIT <= size) & (size <= MAX_SEGMENT));
        let alive = (t[at + BITS] <= MAX_BITS)
            & ((t[at + SHARABLE] <= 1) & (sized & (1 <= references)));
        records::record_ok(t, Kind::Segment, at, alive) & (references == held)
    }

    // Whether s names a subtype of that cell.
    fn subtype_fits(&self, s: u32, cell: usize) -> bool
        ensures { result ≡ names_subtype (conf self.now.frame) s && (subtype_cell (conf self.now.frame) (index_of s) == cell) }
    {
        if !subtypes::named(self.frame.n, s) {
            return false;
        }
        self.frame.subtype_cell(layout::index_of(s)) == cell
    }

    // A file's word for its subtype. Most files have none: that is told first, and the file's cell is looked up for the others alone.
    fn file_subtype_ok(&self, f: usize, s: u32) -> bool
        requires { f < slots (conf self.now.frame) file }
        ensures { result ≡ test (file_subtype_ok (conf self.now.frame) f s) }
    {
        (s == 0) || self.subtype_fits(s, self.cell(Kind::File, f))
    }

    // A file, likewise. Links and opens are added as wider numbers: the words may hold anything.
    fn file_ok(&self, f: usize, held: u32) -> bool
        requires { (f < slots (conf self.now.frame) file) × (held ≡ own_entries (conf self.now.frame) (words self.now.frame) file f) }
        ensures { result ≡ test (file_ok (conf self.now.frame) (words self.now.frame) f) }
    {
        let t = self.frame.t;
        let at = self.frame.record_at(Kind::File, f);
        let links = wide(t[at + LINKS]);
        let opens = wide(t[at + OPENS]);
        let size = wide(t[at + SIZE]);
        let typed = self.file_subtype_ok(f, t[at + SUBTYPE]);
        let alive = (t[at + BITS] <= MAX_BITS)
            & ((links <= MAX_LINKS as usize)
                & ((size <= wide(self.frame.n.blocks)) & ((1 <= links + opens) & typed)));
        records::record_ok(t, Kind::File, at, alive) & (t[at + OPENS] == held)
    }

    fn object_ok(&self, kind: Kind, i: usize, held: u32) -> bool
        requires { (i < slots (conf self.now.frame) (kind_of kind)) × (held ≡ own_entries (conf self.now.frame) (words self.now.frame) (kind_of kind) i) }
        ensures { result ≡ test (object_ok (conf self.now.frame) (words self.now.frame) (kind_of kind) i) }
    {
        match kind {
            Kind::Process => true,
            Kind::Segment => self.segment_ok(i, held),
            Kind::File => self.file_ok(i, held),
        }
    }

    // Every object of a kind. Compiled where it is called, as what judges the entries is: there the kind is known.
    #[inline(always)]
    pub(crate) fn objects_ok(&self, kind: Kind, counts: &[u16]) -> bool
        requires { Tally (conf self.now.frame) (words self.now.frame) (kind_of kind) (slots (conf self.now.frame) process) counts.now }
        ensures { result ≡ test (each (slots (conf self.now.frame) (kind_of kind)) (object_ok (conf self.now.frame) (words self.now.frame) (kind_of kind))) }
    {
        let mut ok = true;
        for i in 0..self.frame.slots(kind) {
            ok &= self.object_ok(kind, i, u32::from(counts[i]));
        }
        ok
    }
}
