// Places in identifiers, as indices.
ghost use Rattle.rules.specs.Seid.{class};
ghost use Rattle.layout.specs.Kinds.{kind_of};
ghost use Rattle.table.specs.Entries.{Indexed};

use layout::{BYTE, INDEX_UNIT, Kind};
use words::wide;

// The index of s among the objects of a kind, and past every slot where s is of another class: class and index are judged by one subtraction.
pub(crate) fn index_in(kind: Kind, s: u32) -> usize
    ensures { Indexed (class (kind_of kind)) s result }
{
    wide((s / INDEX_UNIT).wrapping_sub(kind.class() * BYTE))
}
