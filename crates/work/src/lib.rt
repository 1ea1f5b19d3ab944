// The working slice of the quick engine: how long a table's is, how it is filled, and whether one is the table's. Its parts follow without gaps: the lists of free slots,
// kind by kind and cell by cell, then the masks of open entries, cell by cell and process by process.
#![tactic(auto)]

ghost use Rattle.std.specs.Prelude.{◌≡◌, refl, true, false, MatchOption, ◌&&◌, ℕ, List, ◌+◌, ◌≤◌, ◌<◌, ◌^◌, length};
ghost use Rattle.std.proofs.Common.{◌∙◌};
ghost use Rattle.std.proofs.lemmas.List.Edits.{sets};
ghost use Rattle.rules.specs.Words.{sum_below};
ghost use Rattle.rules.specs.Claim.{test};
ghost use Rattle.rules.specs.Layout.{process, file, held_at, record_words, max_slots, cells, cell_slots, configuration};
ghost use Rattle.rules.specs.WellFormed.{well_formed};
ghost use Rattle.rules.specs.SetUp.{can_set_up};
ghost use Rattle.rules.specs.Work.{list_words, most_masks, most_work, work_in, work_length, fill_answer, filled};
ghost use Rattle.rules.specs.Quick.{same_words};
ghost use Rattle.layout.specs.Kinds.{kind_of};
ghost use Rattle.layout.specs.Header.{base_of, record_of};
ghost use Rattle.lists.specs.Free.{free_list};
ghost use Rattle.marks.specs.Masks.{masks_at};
ghost use Rattle.table.specs.Shape.{Shaped};
ghost use Rattle.work.specs.Parts.{lists_at, rows_at, rows_size, lists_in, all_rows, rows_from, stands_at};
ghost use Rattle.work.specs.Passes.{InTurn, put-then, stands-none, stands-then};

use layout::{Header, Kind};
use rules::{CELL_WORDS, HEADER_WORDS, XB_SZ, XB_TAB, XOK};
use words::{wide, word};

// Where the lists of a kind begin: a cell's has a word more than it has slots, for the count.
pub fn lists_at(n: Header, kind: Kind) -> usize
    ensures { (result ≡ lists_at n (kind_of kind)) × (result < 2 ^ 34) }
{
    let segments = wide(n.processes) + wide(n.cells);
    match kind {
        Kind::Process => 0,
        Kind::Segment => segments,
        Kind::File => segments + wide(n.segments) + wide(n.cells),
    }
}

// Where the masks begin.
pub fn rows_at(n: Header) -> usize
    ensures { (result ≡ rows_at n) × (result < 2 ^ 35) }
{
    lists_at(n, Kind::File) + wide(n.files) + wide(n.cells)
}

// Slots of a kind one behind the other, of those that a table may have: a cell's.
#[derive(Clone, Copy)]
struct Run {
    from: u32,
    count: u32,
    ghost few: { from + count ≤ max_slots },
}

// A table whose shape is right, and its header.
#[derive(Clone, Copy)]
struct Table<'a> {
    t: &'a [u32],
    n: Header,
    ghost shaped: { Shaped t.now n },
}

// What is done with the words of a table's working slice, part by part: they are laid down, or looked at.
trait Pass {
    // The pass before and after it has come to words that belong at a place.
    ghost passed: { Self → Self → ℕ → List ℕ → Type 0 };

    // It comes to the list of a run of slots.
    fn list(&mut self, table: Table, kind: Kind, slots: Run, at: u32)
        ensures { passed self.old self.new at (list_words (free_list table.entry.t.now (base_of table.entry.n (kind_of kind)) (record_words (kind_of kind)) slots.count slots.from) slots.count) };

    // It comes to the masks of process p, of a run of files.
    fn masks(&mut self, table: Table, p: u32, files: Run, at: u32)
        ensures { passed self.old self.new at (masks_at table.entry.t.now (record_of table.entry.n process p + held_at file 0) files.count files.from) };

    // No words are passed at once, and words one behind the other as the first and then the others.
    ghost in_turn: { InTurn passed };
}

// They are laid down.
#[derive(Drop)]
struct Filling<'a> {
    w: &'a mut [u32],
}

impl Pass for Filling<'_> {
    ghost passed = { λ s v at l. (v.w.now ≡ sets s.w.now at l) × (v.w.ghost_name ≡ s.w.ghost_name) };

    ghost in_turn = { record {
      none = λ s at. (refl, refl);
      more = λ s u v at x y a b. (put-then s.w.now u.w.now v.w.now at x y a.0 b.0, b.1 ∙ a.1);
    } };

    fn list(&mut self, table: Table, kind: Kind, slots: Run, at: u32) {
        lists::relist(table.t, table.n, kind, slots.from, slots.count, self.w, at);
    }

    fn masks(&mut self, table: Table, p: u32, files: Run, at: u32) {
        marks::put_masks(table.t, table.n, p, files.from, files.count, self.w, at);
    }
}

// They are looked at: whether all that were come to stood there.
#[derive(Drop)]
struct Comparing<'a> {
    w: &'a [u32],
    right: bool,
}

impl Pass for Comparing<'_> {
    ghost passed = { λ s v at l. (v.w.now ≡ s.w.now) × (v.right ≡ (s.right && stands_at s.w.now at l)) };

    ghost in_turn = { record {
      none = λ s at. (refl, stands-none s.w.now at s.right);
      more = λ s u v at x y a b. (b.0 ∙ a.0, stands-then s.w.now u.w.now s.right u.right v.right at x y a.0 a.1 b.1);
    } };

    fn list(&mut self, table: Table, kind: Kind, slots: Run, at: u32) {
        self.right &= lists::is_list(table.t, table.n, kind, slots.from, slots.count, self.w, at);
    }

    fn masks(&mut self, table: Table, p: u32, files: Run, at: u32) {
        self.right &= marks::are_masks(table.t, table.n, p, files.from, files.count, self.w, at);
    }
}

impl<'a> Table<'a> {
    // The table, where it is well formed.
    fn checked(t: &'a [u32], store_bytes: usize) -> Option<Table<'a>>
        ensures { MatchOption result (test (well_formed t.now store_bytes) ≡ false) (λ x. (test (well_formed t.now store_bytes) ≡ true) × (x.t.now ≡ t.now)) }
    {
        if !table::check(t, store_bytes) {
            return None;
        }
        let n = layout::header_of(t);
        Some(Table { t, n })
    }

    // How many slots of a kind a cell has.
    fn cell_slots(self, kind: Kind, c: u32) -> u32
        ensures { result ≡ cell_slots self.entry.t.now (kind_of kind) c }
    {
        word(
            self.t,
            HEADER_WORDS + CELL_WORDS * wide(c) + kind.cell_word(),
        )
    }

    // How many words the masks have: in every cell, one for each process and each file.
    fn rows_length(self) -> u32
        ensures { (result ≡ sum_below (cells (configuration self.entry.t.now)) (rows_size self.entry.t.now)) × (result ≤ most_masks) }
    {
        let mut sum = 0;
        for c in 0..self.n.cells {
            sum += self.cell_slots(Kind::Process, c) * self.cell_slots(Kind::File, c);
        }
        sum
    }

    // How many words the working slice has.
    fn whole_length(self) -> usize
        ensures { result ≡ length (work_in self.entry.t.now) }
    {
        rows_at(self.n) + wide(self.rows_length())
    }

    // Goes over the lists of a kind.
    fn pass_lists<P: Pass>(self, kind: Kind, pass: &mut P)
        ensures { P.passed pass.old pass.new (lists_at self.entry.n (kind_of kind)) (lists_in self.entry.t.now (kind_of kind)) }
    {
        let at = lists_at(self.n, kind) as u32;
        let mut from = 0;
        for c in 0..self.n.cells {
            let slots = Run {
                from,
                count: self.cell_slots(kind, c),
            };
            pass.list(self, kind, slots, at + from + c);
            from += slots.count;
        }
    }

    // Goes over the masks of a cell, from a place on.
    fn pass_cell<P: Pass>(self, processes: Run, files: Run, at: u32, pass: &mut P)
        requires { at ≤ most_work }
        ensures { P.passed pass.old pass.new at (rows_from self.entry.t.now self.entry.n processes.from processes.count files.from files.count) }
    {
        for i in 0..processes.count {
            pass.masks(self, processes.from + i, files, at + i * files.count);
        }
    }

    // Goes over the masks.
    fn pass_rows<P: Pass>(self, pass: &mut P)
        ensures { P.passed pass.old pass.new (rows_at self.entry.n) (all_rows self.entry.t.now) }
    {
        let mut at = rows_at(self.n) as u32;
        let mut p = 0;
        let mut f = 0;
        for c in 0..self.n.cells {
            let processes = Run {
                from: p,
                count: self.cell_slots(Kind::Process, c),
            };
            let files = Run {
                from: f,
                count: self.cell_slots(Kind::File, c),
            };
            self.pass_cell(processes, files, at, pass);
            at += processes.count * files.count;
            p += processes.count;
            f += files.count;
        }
    }

    // Goes over the whole working slice.
    fn pass<P: Pass>(self, pass: &mut P)
        ensures { P.passed pass.old pass.new 0 (work_in self.entry.t.now) }
    {
        self.pass_lists(Kind::Process, pass);
        self.pass_lists(Kind::Segment, pass);
        self.pass_lists(Kind::File, pass);
        self.pass_rows(pass);
    }
}

// How many words a table's working slice has; of a bad table, 0.
pub fn work_length(t: &[u32], store_bytes: usize) -> usize
    ensures { result ≡ work_length t.now store_bytes }
{
    let Some(table) = Table::checked(t, store_bytes) else {
        return 0;
    };
    table.whole_length()
}

// Fills a working slice by the table; a bad table is refused with 1, then a slice of another length with 5. The answer is a number: the C interface hands it on (monitor_work).
pub fn fill(t: &[u32], store_bytes: usize, w: &mut [u32]) -> u32
    ensures value { result ≡ fill_answer t.now store_bytes w.old }
    ensures w_after { w.new ≡ filled t.now store_bytes w.old }
{
    let Some(table) = Table::checked(t, store_bytes) else {
        return XB_TAB;
    };
    if w.len() != table.whole_length() {
        return XB_SZ;
    }
    table.pass(&mut Filling { w });
    XOK
}

// Whether a working slice is the table's. The records are not judged; a table of another shape has none.
pub fn fits(t: &[u32], store_bytes: usize, w: &[u32]) -> bool
    ensures { result ≡ test (can_set_up t.now store_bytes) && same_words w.now (work_in t.now) }
{
    if !table::can_set_up(t, store_bytes) {
        return false;
    }
    let n = layout::header_of(t);
    let table = Table { t, n };
    if table.whole_length() != w.len() {
        return false;
    }
    let mut seen = Comparing { w, right: true };
    table.pass(&mut seen);
    seen.right
}
