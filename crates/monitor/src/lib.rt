// What a host links: the proved functions, with the contracts that a host may take. The crate monitor_c exports them under the same names for C and Rust hosts. A slice is a pointer and a length.
#![tactic(auto)]

ghost use Rattle.std.specs.Prelude.{◌≡◌, cond, ◌+◌, ◌≤◌, length};
ghost use Rattle.rules.specs.Claim.{test};
ghost use Rattle.rules.specs.WellFormed.{well_formed};
ghost use Rattle.rules.specs.SetUp.{set_up_answer, set_up_table};
ghost use Rattle.rules.specs.Step.{step};
ghost use Rattle.rules.specs.Work.{work_length, fill_answer, filled};
ghost use Rattle.rules.specs.Image.{image_length, image_answer, image_out, reload_answer, reload_table, reload_store};
ghost use Rattle.calls.specs.Did.{Did, state_of, call_of};
ghost use Rattle.calls.specs.Tray.{Trayed};
ghost use Rattle.calls.specs.Quick.{QuickTrayed};
ghost use Rattle.calls.specs.View.{view_part};

use calls::{Answer, Part, Record};

// The C interface: what is found is told in numbers.
const WELL_FORMED: u32 = 0;

const NOT_WELL_FORMED: u32 = 1;

pub fn monitor_setup(table: &mut [u32], store_bytes: usize) -> u32
    ensures value { result ≡ set_up_answer table.old store_bytes }
    ensures table_after { table.new ≡ set_up_table table.old store_bytes }
{
    table::set_up(table, store_bytes)
}

pub fn monitor_check(table: &[u32], store_bytes: usize) -> u32
    ensures { result ≡ cond (test (well_formed table.now store_bytes)) 0 1 }
{
    if table::check(table, store_bytes) {
        return WELL_FORMED;
    }
    NOT_WELL_FORMED
}

pub fn monitor_call(
    table: &mut [u32],
    store: &mut [u8],
    caller: u32,
    code: u32,
    a: u32,
    b: u32,
    c: u32,
    buffer: &mut [u8],
) -> Answer
    ensures { Did (step (state_of table.old store.old) (call_of caller code a b c buffer.old)) result table.new store.new buffer.new }
{
    calls::call(table, store, caller, code, a, b, c, buffer)
}

// A part of the store can't be handed out here: its number, its first byte and its count are.
pub fn monitor_view(table: &[u32], store: &[u8], caller: u32, a: u32, b: u32) -> Part
    ensures value { result ≡ view_part (state_of table.now store.now) caller a b }
    ensures count_in_bounds { result.from + result.count ≤ length store.now }
{
    calls::view_part(table, store, caller, a, b)
}

pub fn monitor_image_length(table: &[u32], store_bytes: usize) -> usize
    ensures { result ≡ image_length table.now store_bytes }
{
    image::image_length(table, store_bytes)
}

pub fn monitor_image(table: &[u32], store: &[u8], out: &mut [u8]) -> u32
    ensures value { result ≡ image_answer table.now store.now out.old }
    ensures out_after { out.new ≡ image_out table.now store.now out.old }
{
    image::image(table, store, out)
}

pub fn monitor_reload(table: &mut [u32], store: &mut [u8], image: &[u8]) -> u32
    ensures value { result ≡ reload_answer table.old store.old image.now }
    ensures table_after { table.new ≡ reload_table table.old store.old image.now }
    ensures store_after { store.new ≡ reload_store table.old store.old image.now }
{
    image::reload(table, store, image)
}

pub fn monitor_tray(
    table: &mut [u32],
    store: &mut [u8],
    records: &mut [Record],
    buffers: &mut [u8],
) -> u32
    ensures { Trayed (state_of table.old store.old) buffers.old records.old result table.new store.new buffers.new records.new }
{
    calls::tray(table, store, records, buffers)
}

pub fn monitor_work_length(table: &[u32], store_bytes: usize) -> usize
    ensures { result ≡ work_length table.now store_bytes }
{
    work::work_length(table, store_bytes)
}

pub fn monitor_work(table: &[u32], store_bytes: usize, work: &mut [u32]) -> u32
    ensures value { result ≡ fill_answer table.now store_bytes work.old }
    ensures work_after { work.new ≡ filled table.now store_bytes work.old }
{
    work::fill(table, store_bytes, work)
}

pub fn monitor_quick_tray(
    table: &mut [u32],
    store: &mut [u8],
    records: &mut [Record],
    buffers: &mut [u8],
    work: &mut [u32],
) -> u32
    ensures { QuickTrayed (state_of table.old store.old) buffers.old work.old records.old result table.new store.new buffers.new records.new work.new }
{
    calls::quick_tray(table, store, records, buffers, work)
}
