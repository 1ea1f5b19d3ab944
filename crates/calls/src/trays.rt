// What calls by the tray are made of: the judging of a tray, and the run of one record. The records are lent to `tray` and `quick_tray` alone.
ghost use Rattle.std.specs.Prelude.{◌≡◌, cond, [], ◌<◌, eqb, ltb};
ghost use Rattle.rules.specs.Words.{tab_from};
ghost use Rattle.rules.specs.Layout.{max_cells};
ghost use Rattle.rules.specs.Tray.{most_records};
ghost use Rattle.layout.specs.Hall.{flow_byte, matrix_in};
ghost use Rattle.kept.proofs.Recorded.{outside_number};
ghost use Rattle.calls.specs.World.{Known};
ghost use Rattle.calls.specs.Left.{said, told};
ghost use Rattle.calls.specs.Did.{state_of};
ghost use Rattle.calls.specs.Tray.{Ran, Ready, answered_by, begun, rule_record, verdict_of};
ghost use Rattle.calls.specs.Quick.{OwnIfLent, begun_quick};

use crate::base::{Ended, told};
use crate::code::asked;
use crate::error::Error;
use crate::{Record, call_judged};
use layout::{FLOWS_AT, HALL_BYTES, Header, header_of};
use rules::{MAX_CELLS, XB_PARAM, XB_TAB, XOK};
use words::wide;

const MOST_RECORDS: usize = 1024;

// "A tray holds up to 1,024."
fn too_long(count: usize) -> bool
    ensures { result ≡ ltb most_records «count» }
{
    MOST_RECORDS < count
}

// What judging hands on of a table on which a tray of so many records is run. Where none is, zeros: no cell flows to any, not even to itself.
pub(crate) fn begin(t: &[u32], store_bytes: usize, count: usize) -> [u8; HALL_BYTES]
    ensures { result ≡ begun t.now store_bytes «count» }
{
    let mut hall = [0u8; HALL_BYTES];
    if too_long(count) {
        return hall;
    }
    table::judge(t, store_bytes, &mut hall);
    hall
}

// The same for a quick tray: zeros too where the working slice isn't the table's.
pub(crate) fn begin_quick(
    t: &[u32],
    store_bytes: usize,
    count: usize,
    w: &[u32],
) -> [u8; HALL_BYTES]
    ensures { result ≡ begun_quick t.now store_bytes «count» w.now }
{
    let hall = begin(t, store_bytes, count);
    if work::fits(t, store_bytes, w) {
        return hall;
    }
    [0u8; HALL_BYTES]
}

// Row c of the flow matrix, by what the judging handed on.
fn row_in(hall: &[u8; HALL_BYTES], c: usize) -> [bool; MAX_CELLS]
    requires { c < max_cells }
    ensures { result ≡ tab_from 0 max_cells (flow_byte hall.now c) }
{
    let mut row = [false; MAX_CELLS];
    for d in 0..MAX_CELLS {
        row[d] = hall[FLOWS_AT + (MAX_CELLS * c + d)] == 1;
    }
    row
}

// The flow matrix, as the call functions take it.
pub(crate) fn matrix_in(hall: &[u8; HALL_BYTES]) -> [[bool; MAX_CELLS]; MAX_CELLS]
    ensures { result ≡ matrix_in hall.now }
{
    let mut m = [[false; MAX_CELLS]; MAX_CELLS];
    for c in 0..MAX_CELLS {
        m[c] = row_in(hall, c);
    }
    m
}

// The tray's own answer, by what its judging handed on: "a longer one is refused with 4, then a bad table with 1". A number: the C interface hands it on (monitor_tray).
pub(crate) fn verdict(hall: &[u8; HALL_BYTES], count: usize) -> u32
    ensures { result ≡ verdict_of hall.now «count» }
{
    if too_long(count) {
        return XB_PARAM;
    }
    if hall[FLOWS_AT] == 1 {
        return XOK;
    }
    XB_TAB
}

// How many of so many records are run.
pub(crate) fn due(error: u32, count: usize) -> usize
    ensures { result ≡ cond (eqb error 0) «count» 0 }
{
    if error == XOK { count } else { 0 }
}

// The record with its answer; its other fields stay.
fn answered(r: Record, ended: Ended) -> Record
    ensures { result ≡ answered_by r (told ended) }
{
    Record {
        answer: told(ended),
        ..r
    }
}

// A record whose part lies outside the byte slice: the caller, then the code, then the part.
fn outside(t: &[u32], n: Header, r: Record) -> Ended
    requires { Known t.now n }
    ensures { told result ≡ said (outside_number (state_of t.now []) (rule_record r)) 0 0 }
{
    asked(t, n, r.caller, r.code)?;
    Err(Error::XbSz)
}

// One record on a judged table: it is taken apart, its call is run on its part of the bytes, and its answer is stored in it. A working slice is right before and after.
#[inline(always)]
pub(crate) fn run(
    t: &mut [u32],
    store: &mut [u8],
    bytes: &mut [u8],
    w: &mut [u32],
    m: &[[bool; MAX_CELLS]; MAX_CELLS],
    hall: &[u8; HALL_BYTES],
    r: Record,
) -> Record
    requires { Ready t.old store.old m.now hall.now × OwnIfLent t.old w.old }
    ensures ran { Ran (state_of t.old store.old) bytes.old r result t.new store.new bytes.new }
    ensures right_in { OwnIfLent t.new w.new }
{
    let from = wide(r.offset);
    let end = from + wide(r.length);
    if end <= bytes.len() {
        let x = call_judged(
            t,
            store,
            m,
            hall,
            w,
            r.caller,
            r.code,
            r.a,
            r.b,
            r.c,
            &mut bytes[from..end],
        );
        return answered(r, x);
    }
    let n = header_of(t);
    answered(r, outside(t, n, r))
}
