// The twenty-one calls over the lent table, store and buffer, singly and by the tray, and the view of a block.
#![tactic(auto)]

ghost use Rattle.std.specs.Prelude.{◌≡◌, ◌+◌, ◌≤◌, length};
ghost use Rattle.rules.specs.Layout.{configuration};
ghost use Rattle.rules.specs.View.{view_number, view_from, view_shown};
ghost use Rattle.rules.specs.Step.{bad_caller, step};
ghost use Rattle.calls.specs.World.{Known, words_of};
ghost use Rattle.calls.specs.Left.{told};
ghost use Rattle.calls.specs.Did.{Did, state_of, call_of};
ghost use Rattle.calls.specs.Tray.{Ready, Trayed};
ghost use Rattle.calls.specs.Quick.{OwnIfLent, QuickTrayed};
ghost use Rattle.calls.specs.View.{view_part};

use crate::base::{Ended, read, told};
use crate::blocks::{hidden, shown};
use crate::code::asked;
use crate::error::Error;
use crate::objects::cell_in;
use crate::quick::carry_out_by;
use crate::trays::{begin, begin_quick, due, matrix_in, run, verdict};
use layout::{HALL_BYTES, Header, Kind, header_of};
use rules::{BLOCK_BYTES, LIVE, MAX_CELLS, XOK};

mod base;
mod blocks;
mod code;
mod dispatch;
mod entries;
mod error;
mod files;
mod mail;
mod map;
mod objects;
mod pages;
mod processes;
mod quick;
mod regrade;
mod room;
mod segments;
mod status;
mod subtypes;
mod trays;

// "An answer is the number and two words." A host in C takes it as it stands.
#[repr(C)]
#[derive(Clone, Copy)]
pub struct Answer {
    pub error: u32,
    pub first: u32,
    pub second: u32,
}

// A call, and room for its answer: 02's record. Its buffer is a part of the byte slice that is lent with the records. A host in C has it as it stands.
#[repr(C)]
#[derive(Clone, Copy)]
pub struct Record {
    pub caller: u32,
    pub code: u32,
    pub a: u32,
    pub b: u32,
    pub c: u32,
    pub offset: u32,
    pub length: u32,
    pub answer: Answer,
}

// A part of the store that is shown: the number, the first byte and how many; on a refusal it is empty. A host in C takes it as it stands.
#[repr(C)]
#[derive(Clone, Copy)]
pub struct Part {
    pub error: u32,
    pub from: usize,
    pub count: usize,
}

// The calling process: its slot and its cell.
#[derive(Clone, Copy)]
pub(crate) struct Caller {
    pub slot: u32,
    pub cell: u32,
}

// What a call on a judged table goes by: the header's numbers, the cells of the slots, which the check handed on, and the calling process. (The flow matrix is handed round
// beside it: document 01 has it by value in the call functions.)
#[derive(Clone, Copy)]
pub(crate) struct Footing<'a> {
    pub n: Header,
    pub hall: &'a [u8; HALL_BYTES],
    pub me: Caller,
}

// "2 caller out of range or not live"
pub(crate) fn bad_caller(t: &[u32], n: Header, p: u32) -> bool
    requires { Known t.now n }
    ensures { result ≡ bad_caller (configuration t.now) (words_of t.now) p }
{
    let live = read(t, n, Kind::Process, p, LIVE);
    (n.processes <= p) | (live != 1)
}

// One call on a judged table: the caller, then the code, then the call's own list. A working slice is right before and after; one without words is none. It reads the header
// from the table: handed on by value, it would be written to memory and read back in wider pieces at each call of a tray.
#[inline(always)]
pub(crate) fn call_judged(
    t: &mut [u32],
    store: &mut [u8],
    m: &[[bool; MAX_CELLS]; MAX_CELLS],
    hall: &[u8; HALL_BYTES],
    w: &mut [u32],
    caller: u32,
    code: u32,
    a: u32,
    b: u32,
    c: u32,
    buffer: &mut [u8],
) -> Ended
    requires { Ready t.old store.old m.now hall.now × OwnIfLent t.old w.old }
    ensures did { Did (step (state_of t.old store.old) (call_of caller code a b c buffer.old)) (told result) t.new store.new buffer.new }
    ensures right_in { OwnIfLent t.new w.new }
{
    let n = header_of(t);
    let code = asked(t, n, caller, code)?;
    let cell = cell_in(hall, Kind::Process, caller);
    let me = Caller { slot: caller, cell };
    carry_out_by(t, store, m, hall, w, me, code, a, b, c, buffer)
}

// One call. The whole table is judged first; the cells that the judging finds, and which of them may flow to which, are handed on.
pub fn call(
    table: &mut [u32],
    store: &mut [u8],
    caller: u32,
    code: u32,
    a: u32,
    b: u32,
    c: u32,
    buffer: &mut [u8],
) -> Answer
    ensures { Did (step (state_of table.old store.old) (call_of caller code a b c buffer.old)) result table.new store.new buffer.new }
{
    let mut hall = [0u8; HALL_BYTES];
    if !table::judge(table, store.len(), &mut hall) {
        return told(Err(Error::XbTab));
    }
    let m = matrix_in(&hall);
    let mut none = [0u32; 0];
    told(call_judged(
        table, store, &m, &hall, &mut none, caller, code, a, b, c, buffer,
    ))
}

// A view's number, and where in the store the block stands that it shows: for a host in C, which can't be handed a part.
pub fn view_part(table: &[u32], store: &[u8], caller: u32, a: u32, b: u32) -> Part
    ensures value { result ≡ view_part (state_of table.now store.now) caller a b }
    ensures count_in_bounds { result.from + result.count ≤ length store.now }
{
    let mut hall = [0u8; HALL_BYTES];
    if !table::judge(table, store.len(), &mut hall) {
        return hidden(Error::XbTab);
    }
    let n = header_of(table);
    if bad_caller(table, n, caller) {
        return hidden(Error::XbPrSd);
    }
    let cell = cell_in(&hall, Kind::Process, caller);
    let me = Caller { slot: caller, cell };
    let on = Footing { n, hall: &hall, me };
    let m = matrix_in(&hall);
    match shown(table, on, m, store, a, b) {
        Ok(from) => Part {
            error: XOK,
            from,
            count: BLOCK_BYTES,
        },
        Err(error) => hidden(error),
    }
}

// Its number apart.
pub fn view_number(table: &[u32], store: &[u8], caller: u32, a: u32, b: u32) -> u32
    ensures { result ≡ view_number (state_of table.now store.now) caller a b }
{
    let p = view_part(table, store, caller, a, b);
    p.error
}

// Reading without a copy: the block as a part of the store; an empty part where it is refused.
pub fn view<'t, 's>(table: &'t [u32], store: &'s [u8], caller: u32, a: u32, b: u32) -> &'s [u8]
    ensures result_value { result.now ≡ view_shown (state_of table.now store.now) caller a b }
    ensures ref_ptr_value { result.ref_ptr ≡ (store.entry.ref_ptr.0, store.entry.ref_ptr.1 + view_from (state_of table.now store.now) caller a b) }
{
    let p = view_part(table, store, caller, a, b);
    let from = p.from;
    let end = from + p.count;
    &store[from..end]
}

// Calls by the tray: the records are run in order, on a table that is judged once.
pub fn tray(table: &mut [u32], store: &mut [u8], records: &mut [Record], bytes: &mut [u8]) -> u32
    ensures { Trayed (state_of table.old store.old) bytes.old records.old result table.new store.new bytes.new records.new }
{
    let hall = begin(table, store.len(), records.len());
    let m = matrix_in(&hall);
    let error = verdict(&hall, records.len());
    let mut none = [0u32; 0];
    let n = due(error, records.len());
    for i in 0..n {
        let r = records[i];
        records[i] = run(table, store, bytes, &mut none, &m, &hall, r);
    }
    error
}

// The same by the quick engine: a working slice is lent too, and is judged with the table. It finds free slots and clashes without a search.
// Two functions, since the C interface has two (monitor_tray, monitor_quick_tray); what is run is one (`run`).
pub fn quick_tray(
    table: &mut [u32],
    store: &mut [u8],
    records: &mut [Record],
    bytes: &mut [u8],
    work: &mut [u32],
) -> u32
    ensures { QuickTrayed (state_of table.old store.old) bytes.old work.old records.old result table.new store.new bytes.new records.new work.new }
{
    let hall = begin_quick(table, store.len(), records.len(), work);
    let m = matrix_in(&hall);
    let error = verdict(&hall, records.len());
    let n = due(error, records.len());
    for i in 0..n {
        let r = records[i];
        records[i] = run(table, store, bytes, work, &m, &hall, r);
    }
    error
}
