// Set-up's two steps, once the shape is right: records of zeros, then a first process in each cell.
ghost use Rattle.std.specs.Prelude.{◌≡◌, ◌+◌, ◌-◌, ◌<◌, ◌≤◌, ◌++◌, length, take, replicate, slice_set};
ghost use Rattle.rules.specs.Claim.{Holds};
ghost use Rattle.rules.specs.Layout.{process, cells, configuration, live, serial, owner, group, bits};
ghost use Rattle.rules.specs.Rule.{write};
ghost use Rattle.rules.specs.WellFormed.{configured};
ghost use Rattle.rules.specs.SetUp.{first_bits, first_processes};
ghost use Rattle.table.specs.Shape.{Framed};

use layout::{Header, Kind};
use rules::{
    CELL_GROUP, CELL_OWNER, CELL_PROCESSES, CELL_WORDS, FIRST_BITS, GROUP, HEADER_WORDS, LIVE,
    OWNER, PROCESS_BITS, PROCESS_WORDS, SERIAL,
};
use words::wide;

// Every word from a place on becomes zero.
pub(crate) fn clear(t: &mut [u32], from: usize)
    requires { from ≤ length t.old }
    ensures { t.new ≡ take from t.old ++ replicate (length t.old - from) 0 }
{
    t[from..].fill(0);
}

// A process begins in the record at `at`, whose words are all zero.
fn begin(t: &mut [u32], at: usize, cell_owner: u32, cell_group: u32)
    requires { at + bits process < length t.old }
    ensures { t.new ≡ slice_set (slice_set (slice_set (slice_set (slice_set t.old (at + live) 1) (at + serial) 1) (at + owner) cell_owner) (at + group) cell_group) (at + bits process) first_bits }
{
    t[at + LIVE] = 1;
    t[at + SERIAL] = 1;
    t[at + OWNER] = cell_owner;
    t[at + GROUP] = cell_group;
    t[at + PROCESS_BITS] = FIRST_BITS;
}

// The first process of each cell, in the first slot of the cell's run. The table and its header are named apart: a frame lends the table for reading, and here it is
// written.
pub(crate) fn begin_all(t: &mut [u32], n: Header)
    requires { Framed t.old n × Holds (configured (configuration t.old)) }
    ensures { t.new ≡ write (configuration t.old) t.old (first_processes (configuration t.old) (cells (configuration t.old))) }
{
    let base = n.base(Kind::Process);
    let mut slot = 0;
    for c in 0..wide(n.cells) {
        let cell = HEADER_WORDS + CELL_WORDS * c;
        let processes = wide(t[cell + CELL_PROCESSES]);
        let owner = t[cell + CELL_OWNER];
        let group = t[cell + CELL_GROUP];
        begin(t, base + PROCESS_WORDS * slot, owner, group);
        slot = slot + processes;
    }
}
