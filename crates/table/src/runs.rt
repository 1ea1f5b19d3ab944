// Each cell owns a run of slots of each kind, in cell order.
ghost use Rattle.std.specs.Prelude.{◌≡◌, replicate};
ghost use Rattle.rules.specs.Layout.{max_slots};
ghost use Rattle.layout.specs.Kinds.{kind_of};
ghost use Rattle.layout.specs.Hall.{slot_cells};
ghost use Rattle.table.specs.Shape.{Shaped};
ghost use Rattle.table.specs.Frame.{conf};

use crate::frame::Frame;
use layout::Kind;
use rules::{CELL_WORDS, HEADER_WORDS};
use words::wide;

// The cell of every slot of a kind, filled run by run in one pass over the cells; past the last slot the list stays 0. It is filled where it stands: to hand it back
// would be to copy it.
pub(crate) fn slot_cells(frame: Frame, kind: Kind, of: &mut [u8])
    requires { Shaped frame.t.now frame.n × (of.old ≡ replicate max_slots 0) }
    ensures { of.new ≡ slot_cells (conf frame.entry) (kind_of kind) }
{
    let k = kind.cell_word();
    let mut i = 0;
    for c in 0..wide(frame.n.cells) {
        let end = i + wide(frame.t[HEADER_WORDS + CELL_WORDS * c + k]);
        of[i..end].fill(c as u8);
        i = end;
    }
}
