// What the check hands on of a table that is right: the cell of every slot, and which cell may flow to which.
ghost use Rattle.std.specs.Prelude.{◌≡◌};
ghost use Rattle.std.proofs.lemmas.List.Edits.{sets};
ghost use Rattle.layout.specs.Kinds.{kind_of};
ghost use Rattle.layout.specs.Hall.{cells_at, stored};
ghost use Rattle.table.specs.Told.{matrix_bytes};

use crate::found::Found;
use layout::{FLOWS, FLOWS_AT, Kind};
use rules::{MAX_CELLS, MAX_SLOTS};
use words::put_bytes;

// The matrix row by row, a byte an entry. The inner loop takes a row whole: by one loop over all entries each would be looked up by itself.
fn flow_bytes(flow: &[[bool; MAX_CELLS]; MAX_CELLS]) -> [u8; FLOWS]
    ensures { result ≡ matrix_bytes flow.now }
{
    let mut bytes = [0u8; FLOWS];
    for c in 0..MAX_CELLS {
        for d in 0..MAX_CELLS {
            bytes[MAX_CELLS * c + d] = u8::from(flow[c][d]);
        }
    }
    bytes
}

// The cells of a kind's slots, in their place.
fn put_cells(hall: &mut [u8], kind: Kind, cells: &[u8; MAX_SLOTS])
    ensures { hall.new ≡ sets hall.old (cells_at (kind_of kind)) cells.now }
{
    put_bytes(hall, kind.cells_at(), cells);
}

// Stores what is found, each list in its place, as far as the hall has room.
pub(crate) fn tell(hall: &mut [u8], found: &Found)
    ensures { hall.new ≡ stored hall.old found.now.process_cells.now found.now.segment_cells.now found.now.file_cells.now (matrix_bytes found.now.flow.now) }
{
    put_cells(hall, Kind::Process, found.process_cells);
    put_cells(hall, Kind::Segment, found.segment_cells);
    put_cells(hall, Kind::File, found.file_cells);
    let flows = flow_bytes(found.flow);
    put_bytes(hall, FLOWS_AT, &flows);
}
