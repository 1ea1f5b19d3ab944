// A table that is as long as its header says: where its records lie, and what they and the subtypes are of.
ghost use Rattle.std.specs.Prelude.{◌≡◌, ◌<◌, ◌≤◌};
ghost use Rattle.rules.specs.Layout.{max_slots, slots, subtype_cell};
ghost use Rattle.layout.specs.Kinds.{kind_of};
ghost use Rattle.table.specs.Shape.{Framed};

use layout::{Header, Kind};
use rules::SUBTYPE_CELL;
use words::wide;

// n is the header of the words t.
#[derive(Clone, Copy)]
pub(crate) struct Frame<'a> {
    pub(crate) t: &'a [u32],
    pub(crate) n: Header,
    ghost framed: { Framed t.now n },
}

impl Frame<'_> {
    ghost use Rattle.table.specs.Frame.{conf, RecordAt};

    // How many slots there are of a kind.
    pub(crate) fn slots(&self, kind: Kind) -> usize
        ensures value { result ≡ slots (conf self.now) (kind_of kind) }
        ensures few { result ≤ max_slots }
    {
        wide(self.n.slots(kind))
    }

    // Where the record of a slot begins.
    pub(crate) fn record_at(&self, kind: Kind, i: usize) -> usize
        requires { i < slots (conf self.now) (kind_of kind) }
        ensures { RecordAt self.now (kind_of kind) i result }
    {
        self.n.record_at(kind, i as u32)
    }

    // The cell of a subtype.
    pub(crate) fn subtype_cell(&self, i: u32) -> usize
        requires { i < self.now.n.subtypes }
        ensures { result ≡ subtype_cell (conf self.now) i }
    {
        wide(self.t[self.n.subtype_at(i) + SUBTYPE_CELL])
    }
}
