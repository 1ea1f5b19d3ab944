// What a caller sees of the object that a word names, and the refusals of "find" and "own".
ghost use Rattle.std.specs.Prelude.{◌≡◌, false, [], ◌+◌, ◌<◌, get_or};
ghost use Rattle.rules.specs.Layout.{max_slots, configuration};
ghost use Rattle.rules.specs.Seid.{or_self};
ghost use Rattle.rules.specs.Find.{absent};
ghost use Rattle.ids.specs.Seid.{identifier};
ghost use Rattle.layout.specs.Kinds.{kind_of};
ghost use Rattle.layout.specs.Hall.{cells_at};
ghost use Rattle.calls.specs.World.{Stands, Sound, words_of};
ghost use Rattle.calls.specs.Handed.{Handed};
ghost use Rattle.rules.specs.Rule.{first_refusal};
ghost use Rattle.calls.specs.Refusing.{found, number_of};
ghost use Rattle.calls.specs.Seen.{name_of, named_of, kind_by, Sixteen, unseen, seen_of, find_tests, own_tests};

use crate::Footing;
use crate::base::{read, refuse};
use crate::error::Error;
use ids::{FileId, Identifier, ProcessId, SegmentId, seid};
use layout::{HALL_BYTES, Header, Kind, class_of};
use rules::{GROUP, LIVE, MAX_CELLS, OWNER, PROCESS_CLASS, SEGMENT_CLASS, SERIAL};
use words::{first, wide};

// "Seid 0 means the calling process."
pub(crate) fn or_self(t: &[u32], on: Footing<'_>, a: u32) -> u32
    requires { Sound t.now on.n on.me }
    ensures { result ≡ or_self (words_of t.now) on.entry.me.slot a }
{
    let me = on.me.slot;
    let serial = read(t, on.n, Kind::Process, me, SERIAL);
    first(a == 0, seid(PROCESS_CLASS, me, serial), a)
}

// What a word names, where it has the form of an identifier of the kind. Each identifier is made by its own class check; past this edge the code goes by kind, slot and
// serial.
#[derive(Clone, Copy)]
pub(crate) struct Named {
    pub slot: u32,
    pub serial: u32,
}

// As an identifier of one kind, in a table with that many slots of it.
fn name_as<I: Identifier>(size: u32, s: u32) -> Option<Named>
    ensures { result ≡ identifier I.kind name_of size s }
{
    let id = I::check(s, size)?;
    Some(Named {
        slot: id.index(),
        serial: id.serial(),
    })
}

fn name_of(n: Header, kind: Kind, s: u32) -> Option<Named>
    ensures { result ≡ named_of n (kind_of kind) s }
{
    match kind {
        Kind::Process => name_as::<ProcessId>(n.processes, s),
        Kind::Segment => name_as::<SegmentId>(n.segments, s),
        Kind::File => name_as::<FileId>(n.files, s),
    }
}

// "Where several kinds are taken it goes by the seid's class, 12 for a class not taken": that is no file's, and is refused as one.
pub(crate) fn kind_by(s: u32) -> Kind
    ensures { kind_of result ≡ kind_by s }
{
    match class_of(s) {
        PROCESS_CLASS => Kind::Process,
        SEGMENT_CLASS => Kind::Segment,
        _ => Kind::File,
    }
}

// One entry of the matrix, where it is lent; no past its sixteen cells.
pub(crate) fn flow_at(m: &[[bool; MAX_CELLS]; MAX_CELLS], c: u32, d: u32) -> bool
    requires { Sixteen m.now }
    ensures { result ≡ get_or (get_or m.now c []) d false }
{
    let Some(row) = m.get(wide(c)) else {
        return false;
    };
    row.get(wide(d)).copied().unwrap_or(false)
}

// The cell of slot i of a kind, which the check found.
pub(crate) fn cell_in(hall: &[u8; HALL_BYTES], kind: Kind, i: u32) -> u32
    requires { i < max_slots }
    ensures { result ≡ get_or hall.now (cells_at (kind_of kind) + i) 0 }
{
    u32::from(hall[kind.cells_at() + wide(i)])
}

// What the caller sees of it: its slot and cell, whether that is the caller's own, whether what it holds may flow to the caller, whether the slot is live with that
// serial, whether the owners are one, and the caller's rights today. What names nothing is seen too, as not formed, absent and allowed nothing: with an Option in place of
// `formed` each call's list of refusals would be cut in two where it is first looked at, and stand less as in the rules.
#[derive(Clone, Copy)]
pub(crate) struct Seen {
    pub formed: bool,
    pub slot: u32,
    pub cell: u32,
    pub own: bool,
    pub flows: bool,
    pub present: bool,
    pub mine: bool,
    pub rights: u32,
}

// What names nothing is not looked at.
pub(crate) fn unseen() -> Seen
    ensures { result ≡ unseen }
{
    Seen {
        formed: false,
        slot: 0,
        cell: 0,
        own: false,
        flows: false,
        present: false,
        mine: false,
        rights: 0,
    }
}

pub(crate) fn look(
    t: &[u32],
    on: Footing<'_>,
    m: &[[bool; MAX_CELLS]; MAX_CELLS],
    kind: Kind,
    s: u32,
) -> Seen
    requires { Stands t.now on m.now }
    ensures { result ≡ seen_of (configuration t.now) (words_of t.now) on.entry.me.slot (kind_of kind) (named_of on.entry.n (kind_of kind) s) }
{
    let Some(x) = name_of(on.n, kind, s) else {
        return unseen();
    };
    let slot = x.slot;
    let me = on.me.slot;
    let cell = cell_in(on.hall, kind, slot);
    let at = on.n.record_at(kind, slot);
    let live = t[at + LIVE];
    let serial = t[at + SERIAL];
    let owner = t[at + OWNER];
    let group = t[at + GROUP];
    let bits_at = kind.bits_word();
    let bits = t[at + bits_at];
    let mine = on.n.record_at(Kind::Process, me);
    let my_owner = t[mine + OWNER];
    let my_group = t[mine + GROUP];
    let flows = flow_at(m, cell, on.me.cell);
    let rights = rights::rights(my_owner, my_group, owner, group, bits);
    Seen {
        formed: true,
        slot,
        cell,
        own: cell == on.me.cell,
        flows,
        present: (live == 1) & (serial == x.serial),
        mine: owner == my_owner,
        rights,
    }
}

// '"Absent" is 2, 11 or 12 where a process, segment or file is wanted.'
pub(crate) fn absent(kind: Kind) -> Error
    ensures { number_of result ≡ absent (kind_of kind) }
{
    match kind {
        Kind::Process => Error::XbPrSd,
        Kind::Segment => Error::XbSgSd,
        Kind::File => Error::XnoObj,
    }
}

// '"Find": bad seid form or wrong class, absent; level forbids, 13; not live or other serial, absent.'
pub(crate) fn find(x: Seen, kind: Kind, forbidden: bool) -> Result<(), Error>
    ensures { found result ≡ first_refusal (find_tests x (kind_of kind) forbidden) }
{
    let gone = absent(kind);
    refuse([
        (!x.formed, gone),
        (forbidden, Error::XnoAcc),
        (!x.present, gone),
    ])
}

// '"Own" is find with another cell giving 13, then owner unequal 14.'
pub(crate) fn own(x: Seen, kind: Kind) -> Result<(), Error>
    ensures { found result ≡ first_refusal (own_tests x (kind_of kind)) }
{
    find(x, kind, !x.own)?;
    refuse([(!x.mine, Error::XnoOwner)])
}
