// The table: whether it is well formed, and how it is set up.
#![tactic(auto)]

mod entry;
mod found;
mod frame;
mod hall;
mod held;
mod objects;
mod once;
mod pages;
mod places;
mod process;
mod records;
mod row;
mod runs;
mod setup;
mod shape;
mod subtypes;

ghost use Rattle.std.specs.Prelude.{◌≡◌, if◌then◌else◌};
ghost use Rattle.rules.specs.Claim.{test};
ghost use Rattle.rules.specs.Layout.{configuration};
ghost use Rattle.rules.specs.WellFormed.{records_ok, well_formed};
ghost use Rattle.rules.specs.SetUp.{can_set_up, set_up_answer, set_up_table};
ghost use Rattle.layout.specs.Hall.{told_in};
ghost use Rattle.table.specs.Shape.{Shaped};
ghost use Rattle.table.specs.Frame.{conf, words};

use crate::found::Found;
use crate::frame::Frame;
use layout::Kind;
use rules::{MAX_SLOTS, XB_PARAM, XOK};

// The records, by what is found of the table. The processes are gone through once; what they hold is counted on the way and then compared with what segments and
// files say.
fn records_ok(found: &Found) -> bool
    ensures { result ≡ test (records_ok (conf found.now.frame) (words found.now.frame)) }
{
    let mut references = [0u16; MAX_SLOTS];
    let mut opens = [0u16; MAX_SLOTS];
    if !found.processes_ok(&mut references, &mut opens) {
        return false;
    }
    found.objects_ok(Kind::Segment, &references) & found.objects_ok(Kind::File, &opens)
}

// Judges the records, once the shape is right. The cell of every slot and which cell may flow to which are found once: they serve the judging, and where all is right
// the hall comes to hold them.
fn judge_records(frame: Frame, hall: &mut [u8]) -> bool
    requires { Shaped frame.t.now frame.n }
    ensures value { result ≡ test (records_ok (conf frame.entry) (words frame.entry)) }
    ensures hall_after { hall.new ≡ (if test (records_ok (conf frame.entry) (words frame.entry)) then told_in (conf frame.entry) hall.old else hall.old) }
{
    let flow = levels::flow_matrix(frame.t);
    let valid = modes::valid_table();
    let mut process_cells = [0u8; MAX_SLOTS];
    let mut segment_cells = [0u8; MAX_SLOTS];
    let mut file_cells = [0u8; MAX_SLOTS];
    runs::slot_cells(frame, Kind::Process, &mut process_cells);
    runs::slot_cells(frame, Kind::Segment, &mut segment_cells);
    runs::slot_cells(frame, Kind::File, &mut file_cells);
    let found = Found {
        frame,
        process_cells: &process_cells,
        segment_cells: &segment_cells,
        file_cells: &file_cells,
        flow: &flow,
        valid: &valid,
    };
    if !records_ok(&found) {
        return false;
    }
    hall::tell(hall, &found);
    true
}

// Whether the table is well formed, for a store of that many bytes. Of one that is, the hall comes to hold the cell of every slot and which cell may flow to which, as
// far as it has room: a call finds neither anew.
pub fn judge(t: &[u32], store_bytes: usize, hall: &mut [u8]) -> bool
    ensures value { result ≡ test (well_formed t.now store_bytes) }
    ensures hall_after { hall.new ≡ (if test (well_formed t.now store_bytes) then told_in (configuration t.now) hall.old else hall.old) }
{
    if !shape::can_set_up(t, store_bytes) {
        return false;
    }
    let n = layout::header_of(t);
    judge_records(Frame { t, n }, hall)
}

// The same for one who asks nothing more: there is no room for what is found on the way.
pub fn check(t: &[u32], store_bytes: usize) -> bool
    ensures { result ≡ test (well_formed t.now store_bytes) }
{
    let mut none = [0u8; 0];
    judge(t, store_bytes, &mut none)
}

// Whether the table's shape is right, for a store of that many bytes: header, lengths, cells and subtypes. The records are not judged.
pub fn can_set_up(t: &[u32], store_bytes: usize) -> bool
    ensures { result ≡ test (can_set_up t.now store_bytes) }
{
    shape::can_set_up(t, store_bytes)
}

// Sets the table up by the header and the cells that stand in it, for a store of that many bytes; or refuses them, and changes nothing.
// The answer is a number: the C interface hands it on (monitor_setup).
pub fn set_up(t: &mut [u32], store_bytes: usize) -> u32
    ensures value { result ≡ set_up_answer t.old store_bytes }
    ensures t_after { t.new ≡ set_up_table t.old store_bytes }
{
    if !shape::can_set_up(t, store_bytes) {
        return XB_PARAM;
    }
    let n = layout::header_of(t);
    let from = n.base(Kind::Process);
    setup::clear(t, from);
    setup::begin_all(t, n);
    XOK
}
