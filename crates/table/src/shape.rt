// The table's shape: its header, its lengths, its cells and its subtypes. Set-up judges this much and no more.
ghost use Rattle.std.specs.Prelude.{◌≡◌, ◌<◌, ◌≤◌, length};
ghost use Rattle.rules.specs.Words.{sum_below};
ghost use Rattle.rules.specs.Claim.{test, each, ◌&◌};
ghost use Rattle.rules.specs.Layout.{header_words, cell_words, cells, cell_word, subtypes, configuration};
ghost use Rattle.rules.specs.WellFormed.{header_ok, cell_ok, levels_distinct, sums_match, subtype_ok, lengths_exact};
ghost use Rattle.rules.specs.SetUp.{can_set_up};
ghost use Rattle.table.specs.Shape.{IsHeader, Small};
ghost use Rattle.table.specs.Frame.{conf};

use crate::frame::Frame;
use layout::Header;
use rules::{
    BLOCK_BYTES, CELL_FILES, CELL_GROUP, CELL_OWNER, CELL_PROCESSES, CELL_SEGMENTS, CELL_WORDS,
    HEADER_WORDS, MAX_BITS, MAX_BLOCKS, MAX_CATEGORY, MAX_CELLS, MAX_OWNER, MAX_SLOTS,
    MAX_SUBTYPES, SUBTYPE_BITS, SUBTYPE_GROUP, SUBTYPE_OWNER,
};
use words::wide;

// The two categories of a cell's level.
const SECURITY: usize = 0;

const INTEGRITY: usize = 1;

fn header_ok(t: &[u32], n: Header) -> bool
    requires { (header_words ≤ length t.now) × IsHeader t.now n }
    ensures { result ≡ test (header_ok (configuration t.now)) }
{
    ((1 <= n.cells) & (n.cells <= MAX_CELLS as u32))
        & (((1 <= n.processes) & (n.processes <= MAX_SLOTS as u32))
            & ((n.segments <= MAX_SLOTS as u32)
                & ((n.files <= MAX_SLOTS as u32)
                    & (((1 <= n.blocks) & (n.blocks <= MAX_BLOCKS))
                        & ((n.guard <= n.cells)
                            & ((n.subtypes <= MAX_SUBTYPES as u32) & (t[7] == 0)))))))
}

fn lengths_exact(t: &[u32], n: Header, store_bytes: usize) -> bool
    requires { IsHeader t.now n × Small n }
    ensures { result ≡ test (lengths_exact (configuration t.now) (length t.now) store_bytes) }
{
    (t.len() == n.table_words()) & (store_bytes == wide(n.files) * (wide(n.blocks) * BLOCK_BYTES))
}

impl Frame<'_> {
    fn cell_ok(&self, c: usize) -> bool
        requires { c < self.now.n.cells }
        ensures { result ≡ test (cell_ok (conf self.now) c) }
    {
        let t = self.t;
        let at = HEADER_WORDS + CELL_WORDS * c;
        (t[at + SECURITY] <= MAX_CATEGORY)
            & ((t[at + INTEGRITY] <= MAX_CATEGORY)
                & ((1 <= t[at + CELL_PROCESSES])
                    & ((t[at + CELL_OWNER] <= MAX_OWNER) & (t[at + CELL_GROUP] <= MAX_OWNER))))
    }

    fn cells_ok(&self) -> bool
        ensures { result ≡ test (each (cells (conf self.now)) (cell_ok (conf self.now))) }
    {
        let mut ok = true;
        for c in 0..wide(self.n.cells) {
            ok &= self.cell_ok(c);
        }
        ok
    }

    // Whether no two cells have one level: each is compared with those before it.
    fn levels_distinct(&self) -> bool
        ensures { result ≡ test (levels_distinct (conf self.now)) }
    {
        let all = levels::levels(self.t);
        let mut ok = true;
        for d in 0..wide(self.n.cells) {
            let mine = all[d];
            for c in 0..d {
                let other = all[c];
                ok &= !other.equals(mine);
            }
        }
        ok
    }

    // How many slots of a kind the cells own together; k is the kind's word in a cell. The sum is a true one: it cannot wrap.
    fn slots_owned(&self, k: usize) -> usize
        requires { k < cell_words }
        ensures { result ≡ sum_below (cells (conf self.now)) (λ c. cell_word (conf self.now) c k) }
    {
        let t = self.t;
        let mut sum = 0;
        for c in 0..wide(self.n.cells) {
            sum += wide(t[HEADER_WORDS + CELL_WORDS * c + k]);
        }
        sum
    }

    fn sums_match(&self) -> bool
        ensures { result ≡ test (sums_match (conf self.now)) }
    {
        (self.slots_owned(CELL_PROCESSES) == wide(self.n.processes))
            & ((self.slots_owned(CELL_SEGMENTS) == wide(self.n.segments))
                & (self.slots_owned(CELL_FILES) == wide(self.n.files)))
    }

    // A subtype is of a cell that there is, and of none before that of the subtype before it; the first has none before it, and is compared with itself.
    fn subtype_ok(&self, i: u32) -> bool
        requires { i < self.now.n.subtypes }
        ensures { result ≡ test (subtype_ok (conf self.now) i) }
    {
        let t = self.t;
        let at = self.n.subtype_at(i);
        let cell = self.subtype_cell(i);
        let last = self.subtype_cell(i.saturating_sub(1));
        (cell < wide(self.n.cells))
            & ((last <= cell)
                & ((t[at + SUBTYPE_OWNER] <= MAX_OWNER)
                    & ((t[at + SUBTYPE_GROUP] <= MAX_OWNER) & (t[at + SUBTYPE_BITS] <= MAX_BITS))))
    }

    fn subtypes_ok(&self) -> bool
        ensures { result ≡ test (each (subtypes (conf self.now)) (subtype_ok (conf self.now))) }
    {
        let mut ok = true;
        for i in 0..self.n.subtypes {
            ok &= self.subtype_ok(i);
        }
        ok
    }

    fn configuration_right(&self) -> bool
        ensures { result ≡ test (each (cells (conf self.now)) (cell_ok (conf self.now)) & levels_distinct (conf self.now) & sums_match (conf self.now) & each (subtypes (conf self.now)) (subtype_ok (conf self.now))) }
    {
        self.cells_ok() & (self.levels_distinct() & (self.sums_match() & self.subtypes_ok()))
    }
}

// Cells and subtypes are looked at only once the header and the lengths are right: then every index is in range.
pub(crate) fn can_set_up(t: &[u32], store_bytes: usize) -> bool
    ensures { result ≡ test (can_set_up t.now store_bytes) }
{
    if t.len() < HEADER_WORDS {
        return false;
    }
    let n = layout::header_of(t);
    if !header_ok(t, n) {
        return false;
    }
    if !lengths_exact(t, n, store_bytes) {
        return false;
    }
    Frame { t, n }.configuration_right()
}
