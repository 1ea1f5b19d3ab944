// The quick engine: what a call asks of the working slice instead of searching the table, and what it does to the slice once it has succeeded.
ghost use Rattle.std.specs.Option.{option_map};
ghost use Rattle.std.specs.Prelude.{◌≡◌, true, cond, ◌+◌, ◌*◌, ◌≤◌, ◌<◌, ◌^◌, length, eqb};
ghost use Rattle.rules.specs.Layout.{process, file, store_bytes, configuration, max_slots, cell_of, at, live, rd};
ghost use Rattle.layout.specs.Kinds.{kind_of};
ghost use Rattle.layout.specs.Header.{header_of};
ghost use Rattle.layout.specs.Hall.{hall_of};
ghost use Rattle.table.specs.Shape.{Small};
ghost use Rattle.follow.specs.Right.{Right, list_at, rows_to, mark_at, mark_of};
ghost use Rattle.follow.specs.Followed.{noted, here, taken_in, marked_by, unmarked_by, given_back, listed_anew, masked_anew, after_release, followed};
ghost use Rattle.calls.specs.World.{StandsIn, Known, Sound, words_of};
ghost use Rattle.calls.specs.Handed.{Handed};
ghost use Rattle.rules.specs.Step.{regrade_code};
ghost use Rattle.calls.specs.Codes.{code_number};
ghost use Rattle.calls.specs.Left.{told};
ghost use Rattle.calls.specs.Did.{Through, rule_in};
ghost use Rattle.calls.specs.Seen.{slot_found};
ghost use Rattle.work.specs.Parts.{lists_at, rows_at};
ghost use Rattle.calls.specs.Quick.{RightIn, OwnIfLent, kind_made, Made, Tells, Near, Followable};

use crate::base::{Ended, read};
use crate::code::Code;
use crate::dispatch::carry_out;
use crate::entries::entry_of;
use crate::objects::{cell_in, or_self};
use crate::room::{free_slot, in_cell, run_of};
use crate::{Caller, Footing};
use layout::{HALL_BYTES, Header, Kind, header_of, index_of, is_seid};
use lists::SERIAL_UNIT;
use modes::valid;
use rules::{CELL_FILES, CELL_PROCESSES, LIVE, MAX_CELLS, MAX_SERIAL, SERIAL};
use words::first;

// ---- places in the working slice

// Where the lists of a kind begin, in the words that a place in the slice is told in.
fn lists_at(n: Header, kind: Kind) -> u32
    requires { Small n }
    ensures { (result ≡ lists_at n (kind_of kind)) × (result < 2 ^ 12) }
{
    work::lists_at(n, kind) as u32
}

// Where the list of a cell begins.
fn list_at(t: &[u32], n: Header, kind: Kind, c: u32) -> u32
    requires { Known t.now n × (c < n.cells) }
    ensures { result ≡ list_at (configuration t.now) (kind_of kind) c }
{
    let run = run_of(t, n, kind, c);
    lists_at(n, kind) + (run.from + c)
}

// Where the masks begin, likewise.
fn masks_at(n: Header) -> u32
    requires { Small n }
    ensures { (result ≡ rows_at n) × (result < 2 ^ 12) }
{
    work::rows_at(n) as u32
}

// How many words of them the cells before c have.
fn masks_before(t: &[u32], n: Header, c: u32) -> u32
    requires { Known t.now n × (c < n.cells) }
    ensures { (result ≡ rows_to (configuration t.now) c) × (result < 2 ^ 21) }
{
    let mut words: u32 = 0;
    for i in 0..c {
        words += in_cell(t, n, i, CELL_PROCESSES) * in_cell(t, n, i, CELL_FILES);
    }
    words
}

// Where the mask of file f and process i of a cell is, both counted within the cell.
fn mark_in(t: &[u32], n: Header, c: u32, f: u32, i: u32) -> u32
    requires { Known t.now n × (c < n.cells) × (f < max_slots) × (i < max_slots) }
    ensures { result ≡ mark_at (configuration t.now) c f i }
{
    let before = masks_before(t, n, c);
    let step = in_cell(t, n, c, CELL_FILES);
    masks_at(n) + before + (i * step + f)
}

// Where the mask of a process of the caller's cell is, for a file of that cell.
fn mark_of(t: &[u32], on: Footing<'_>, p: u32, f: u32) -> u32
    requires { Known t.now on.n × (on.me.cell < on.n.cells) × Near t.now on.me process p × Near t.now on.me file f }
    ensures { result ≡ mark_of (configuration t.now) p f }
{
    let processes = run_of(t, on.n, Kind::Process, on.me.cell);
    let files = run_of(t, on.n, Kind::File, on.me.cell);
    mark_in(t, on.n, on.me.cell, f - files.from, p - processes.from)
}

// ---- what a call asks of it

// The slot that a creating call takes in a cell, if any, by the working slice: that of the list's last key.
fn listed_slot(t: &[u32], n: Header, w: &[u32], kind: Kind, cell: u32) -> Option<u32>
    requires { Known t.now n × (cell < n.cells) × RightIn t.now w.now }
    ensures { result ≡ slot_found (configuration t.now) (words_of t.now) (kind_of kind) cell }
{
    let run = run_of(t, n, kind, cell);
    let at = list_at(t, n, kind, cell);
    let end = run.from + run.count;
    let i = lists::next(w, at, end);
    if i < end { Some(i) } else { None }
}

// The same by the working slice, where one is lent, else by a search.
fn slot_for(t: &[u32], n: Header, w: &[u32], kind: Kind, cell: u32) -> Option<u32>
    requires { Known t.now n × (cell < n.cells) × OwnIfLent t.now w.now }
    ensures { result ≡ slot_found (configuration t.now) (words_of t.now) (kind_of kind) cell }
{
    if w.len() == 0 {
        return free_slot(t, n, kind, cell);
    }
    listed_slot(t, n, w, kind, cell)
}

// The kind of object that a call makes, if it spawns, builds, creates or copies one.
fn kind_made(code: Code) -> Option<Kind>
    ensures { option_map kind_of result ≡ kind_made (code_number code) }
{
    match code {
        Code::Spawn => Some(Kind::Process),
        Code::BuildSegment => Some(Kind::Segment),
        Code::Create | Code::Regrade => Some(Kind::File),
        _ => None,
    }
}

// The cell in which a call makes it: the caller's, and for a copy cell b.
fn cell_made(me: Caller, code: Code, b: u32) -> u32
    ensures { result ≡ cond (eqb (code_number code) regrade_code) b me.cell }
{
    match code {
        Code::Regrade => b,
        _ => me.cell,
    }
}

// The slot for what a call makes, if any: in the caller's cell, and for a copy in cell b; a cell that the table does not have has none. Of all calls it is asked for in
// this one place, so that the compiler lays the search into the dispatch.
pub(crate) fn slot_made(t: &[u32], on: Footing<'_>, w: &[u32], code: Code, b: u32) -> Option<u32>
    requires { Sound t.now on.n on.me × OwnIfLent t.now w.now }
    ensures { Made t.now on.entry.me (code_number code) b result }
{
    let kind = kind_made(code)?;
    let cell = cell_made(on.me, code, b);
    if on.n.cells <= cell {
        return None;
    }
    slot_for(t, on.n, w, kind, cell)
}

// Whether a word names a slot of the caller's cell.
fn is_here(t: &[u32], on: Footing<'_>, kind: Kind, s: u32) -> bool
    requires { StandsIn t.now on }
    ensures { result ≡ here (configuration t.now) on.entry.me.slot (kind_of kind) s }
{
    if is_seid(kind.class(), on.n.slots(kind), s) {
        return cell_in(on.hall, kind, index_of(s)) == on.me.cell;
    }
    false
}

// Whether an open of a file of the caller's cell clashes, by the file's masks. Of another file, of modes that are not valid, and where no slice is lent, nothing is told.
pub(crate) fn foretold(t: &[u32], on: Footing<'_>, w: &[u32], s: u32, b: u32) -> Option<bool>
    requires { StandsIn t.now on × OwnIfLent t.now w.now }
    ensures { Tells t.now on.entry.me.cell s b result }
{
    if w.len() == 0 {
        return None;
    }
    if is_here(t, on, Kind::File, s) & valid(b) {
        let processes = run_of(t, on.n, Kind::Process, on.me.cell);
        let files = run_of(t, on.n, Kind::File, on.me.cell);
        let at = mark_in(t, on.n, on.me.cell, index_of(s) - files.from, 0);
        return Some(marks::row_clash(
            t,
            on.n,
            processes.from,
            processes.count,
            w,
            at,
            files.count,
            s,
            b,
        ));
    }
    None
}

// ---- what a call does to it

// What a call is about, as the table holds it before: calls 5 and 9 the object that is given up, the others what a names.
fn note(t: &[u32], on: Footing<'_>, code: Code, a: u32) -> u32
    requires { Sound t.now on.n on.me }
    ensures { result ≡ noted (words_of t.now) on.entry.me.slot (code_number code) a }
{
    match code {
        Code::ReleaseSegment => entry_of(t, on.n, Kind::Segment, on.me.slot, a).held,
        Code::Close => entry_of(t, on.n, Kind::File, on.me.slot, a).held,
        _ => or_self(t, on, a),
    }
}

// A slot of a cell is taken.
fn take_slot(t: &[u32], n: Header, kind: Kind, c: u32, w: &mut [u32])
    requires { Known t.now n × (c < n.cells) }
    ensures { w.new ≡ taken_in (configuration t.now) (kind_of kind) c w.old }
{
    let at = list_at(t, n, kind, c);
    lists::take(w, at);
}

// The caller's descriptor d has come to hold s, or has ceased to.
fn remark(t: &[u32], on: Footing<'_>, s: u32, d: u32, holds: bool, w: &mut [u32])
    requires { StandsIn t.now on }
    ensures { w.new ≡ cond holds (marked_by (configuration t.now) on.entry.me.slot s d w.old) (unmarked_by (configuration t.now) on.entry.me.slot s d w.old) }
{
    if is_here(t, on, Kind::File, s) {
        let at = mark_of(t, on, on.me.slot, index_of(s));
        if holds {
            marks::mark(w, at, d);
        } else {
            marks::unmark(w, at, d);
        }
    }
}

// The slot of s, if it can be taken now, is given back.
fn give_slot(t: &[u32], on: Footing<'_>, kind: Kind, s: u32, w: &mut [u32])
    requires { StandsIn t.now on }
    ensures { w.new ≡ given_back (configuration t.now) (words_of t.now) on.entry.me.slot (kind_of kind) s w.old }
{
    if is_here(t, on, kind, s) {
        let i = index_of(s);
        let live = read(t, on.n, kind, i, LIVE);
        let serial = read(t, on.n, kind, i, SERIAL);
        if (live == 0) & (serial < MAX_SERIAL) {
            let at = list_at(t, on.n, kind, on.me.cell);
            lists::give_back(w, at, serial * SERIAL_UNIT + i);
        }
    }
}

// A list of a cell is made anew.
fn list_anew(t: &[u32], n: Header, kind: Kind, c: u32, w: &mut [u32])
    requires { Known t.now n × (c < n.cells) }
    ensures { w.new ≡ listed_anew (configuration t.now) (words_of t.now) (kind_of kind) c w.old }
{
    let run = run_of(t, n, kind, c);
    let at = list_at(t, n, kind, c);
    lists::relist(t, n, kind, run.from, run.count, w, at);
}

// The masks of a process of a cell are made anew.
fn masks_anew(t: &[u32], n: Header, c: u32, i: u32, w: &mut [u32])
    requires { Known t.now n × (c < n.cells) × (i < n.processes) × (cell_of (configuration t.now) process i ≡ c) }
    ensures { w.new ≡ masked_anew (configuration t.now) (words_of t.now) c i w.old }
{
    let processes = run_of(t, n, Kind::Process, c);
    let files = run_of(t, n, Kind::File, c);
    let at = mark_in(t, n, c, 0, i - processes.from);
    marks::put_masks(t, n, i, files.from, files.count, w, at);
}

// A process is released: its slot, and those of what it held last, are free.
fn after_release(t: &[u32], n: Header, c: u32, i: u32, w: &mut [u32])
    requires { Known t.now n × (c < n.cells) × (i < n.processes) × (cell_of (configuration t.now) process i ≡ c) }
    ensures { w.new ≡ after_release (configuration t.now) (words_of t.now) c i w.old }
{
    list_anew(t, n, Kind::Process, c, w);
    list_anew(t, n, Kind::Segment, c, w);
    list_anew(t, n, Kind::File, c, w);
    masks_anew(t, n, c, i, w);
}

// What a call that has succeeded does to the working slice: s is what it was about, x and y are its answer's words.
fn follow(
    t: &[u32],
    on: Footing<'_>,
    s: u32,
    code: Code,
    a: u32,
    b: u32,
    x: u32,
    y: u32,
    w: &mut [u32],
)
    requires { StandsIn t.now on × Followable t.now on.me s (code_number code) b }
    ensures { w.new ≡ followed (configuration t.now) (words_of t.now) on.entry.me.slot s (code_number code) a b x y w.old }
{
    match code {
        Code::Spawn => take_slot(t, on.n, Kind::Process, on.me.cell, w),
        Code::ReleaseProcess => after_release(t, on.n, on.me.cell, index_of(s), w),
        Code::BuildSegment => take_slot(t, on.n, Kind::Segment, on.me.cell, w),
        Code::ReleaseSegment => give_slot(t, on, Kind::Segment, s, w),
        Code::Create => {
            take_slot(t, on.n, Kind::File, on.me.cell, w);
            remark(t, on, x, y, true, w);
        }
        Code::Open => remark(t, on, s, x, true, w),
        Code::Close => {
            remark(t, on, s, a, false, w);
            give_slot(t, on, Kind::File, s, w);
        }
        Code::Unlink => give_slot(t, on, Kind::File, s, w),
        Code::Regrade => take_slot(t, on.n, Kind::File, b, w),
        _ => {}
    }
}

// A call by its name, and the working slice after it, where one is lent. The dispatch is called in this one place of the text; this function
// is laid into the single call and the loops of the trays for speed: with it, `run` and `call_judged` out of line a tray on the small table took half as long again.
#[inline(always)]
pub(crate) fn carry_out_by(
    t: &mut [u32],
    store: &mut [u8],
    m: &[[bool; MAX_CELLS]; MAX_CELLS],
    hall: &[u8; HALL_BYTES],
    w: &mut [u32],
    me: Caller,
    code: Code,
    a: u32,
    b: u32,
    c: u32,
    buffer: &mut [u8],
) -> Ended
    requires { Sound t.old (header_of (configuration t.old)) me × Handed (configuration t.old) m.now hall.now × (length store.old ≡ store_bytes (configuration t.old)) × OwnIfLent t.old w.old × (words_of t.old (at process me.slot live) ≡ 1) }
    ensures through { Through t.old store.old buffer.old (rule_in t.old store.old me.slot (code_number code) a b c buffer.old) (told result) t.new store.new buffer.new }
    ensures right { 0 < length w.new → Right (configuration t.old) (rd (configuration t.old) t.new) w.new }
{
    let n = header_of(t);
    let on = Footing { n, hall, me };
    let lent = w.len() != 0;
    let s = if lent { note(t, on, code, a) } else { 0 };
    let (x, y) = carry_out(t, store, m, hall, w, me, code, a, b, c, buffer)?;
    if lent {
        follow(t, on, s, code, a, b, x, y, w);
    }
    Ok((x, y))
}
