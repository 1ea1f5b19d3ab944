// What is found once of a table whose shape is right: the cell of every slot, which cell may flow to which, and which numbers are modes.
ghost use Rattle.std.specs.Prelude.{◌≡◌, ◌<◌};
ghost use Rattle.rules.specs.Layout.{max_cells, process, segment, file, slots, cell_of, flows, flow_matrix, configuration};
ghost use Rattle.layout.specs.Kinds.{kind_of};
ghost use Rattle.modes.specs.Valid.{valid_table};
ghost use Rattle.table.specs.Shape.{Shaped, CellsOf};

use crate::frame::Frame;
use layout::Kind;
use modes::NUMBERS;
use rules::{MAX_CELLS, MAX_SLOTS};

#[derive(Clone, Copy)]
pub(crate) struct Found<'a> {
    pub(crate) frame: Frame<'a>,
    pub(crate) process_cells: &'a [u8; MAX_SLOTS],
    pub(crate) segment_cells: &'a [u8; MAX_SLOTS],
    pub(crate) file_cells: &'a [u8; MAX_SLOTS],
    pub(crate) flow: &'a [[bool; MAX_CELLS]; MAX_CELLS],
    pub(crate) valid: &'a [bool; NUMBERS],
    ghost shaped: { Shaped frame.t.now frame.n },
    ghost of_processes: { CellsOf (configuration frame.t.now) process process_cells.now },
    ghost of_segments: { CellsOf (configuration frame.t.now) segment segment_cells.now },
    ghost of_files: { CellsOf (configuration frame.t.now) file file_cells.now },
    ghost flow_is: { flow.now ≡ flow_matrix (configuration frame.t.now) },
    ghost valid_is: { valid.now ≡ valid_table },
}

impl Found<'_> {
    ghost use Rattle.table.specs.Frame.{conf};

    // The cell of the object in a slot. A cell is kept in a byte and used as an index.
    pub(crate) fn cell(&self, kind: Kind, i: usize) -> usize
        requires { i < slots (conf self.now.frame) (kind_of kind) }
        ensures value { result ≡ cell_of (conf self.now.frame) (kind_of kind) i }
        ensures low { result < max_cells }
    {
        let cells = match kind {
            Kind::Process => self.process_cells,
            Kind::Segment => self.segment_cells,
            Kind::File => self.file_cells,
        };
        usize::from(cells[i])
    }

    // Whether what is of cell c may flow to cell d.
    pub(crate) fn flows(&self, c: usize, d: usize) -> bool
        requires { (c < max_cells) × (d < max_cells) }
        ensures { result ≡ flows (conf self.now.frame) c d }
    {
        self.flow[c][d]
    }
}
