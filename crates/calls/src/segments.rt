// Segments: build, rendezvous, set access, access. (Release is files::give_up.)
ghost use Rattle.std.specs.Prelude.{◌≡◌, List, ℕ};
ghost use Rattle.rules.specs.Layout.{segment, configuration};
ghost use Rattle.rules.specs.WellFormed.{segment_size};
ghost use Rattle.rules.specs.Call03.{build_segment};
ghost use Rattle.rules.specs.Call04.{already_held, rendezvous};
ghost use Rattle.rules.specs.Call06.{set_access};
ghost use Rattle.rules.specs.Call18.{access_of};
ghost use Rattle.calls.specs.World.{Stands, Known, Sound, words_of};
ghost use Rattle.calls.specs.Handed.{Handed};
ghost use Rattle.calls.specs.Left.{Left, told};
ghost use Rattle.calls.specs.Seen.{slot_found};
ghost use Rattle.calls.specs.Calls.{owner_access};

use crate::Footing;
use crate::base::{Ended, read, refuse};
use crate::entries::{enter, entry_of, make, take_up};
use crate::error::Error;
use crate::objects::{find, look, or_self};
use crate::room::free_entry;
use ids::seid;
use layout::Kind;
use rights::{access, asks_read, asks_write, lacks, may_read, may_write, valid_access};
use rules::{
    ENTRIES, GROUP, MAX_BITS, MAX_CELLS, MAX_SEGMENT, OWNER, SEGMENT_CLASS, SEGMENT_UNIT, SERIAL,
    SHARABLE,
};
use words::{put, wide};

// The caller holds this seid.
fn already_held(t: &[u32], on: Footing<'_>, s: u32) -> bool
    requires { Known t.now on.n }
    ensures { result ≡ already_held (words_of t.now) on.entry.me.slot s }
{
    for d in 0..ENTRIES as u32 {
        if entry_of(t, on.n, Kind::Segment, on.me.slot, d).held == s {
            return true;
        }
    }
    false
}

// "A multiple of 512 in 512..65024."
fn is_size(n: u32) -> bool
    ensures { result ≡ segment_size n }
{
    n % SEGMENT_UNIT == 0 && (SEGMENT_UNIT..=MAX_SEGMENT).contains(&n)
}

// The owner's read and write bits, as access.
fn owner_access(bits: u32) -> u32
    ensures { result ≡ owner_access bits }
{
    access(may_read(bits / 64), may_write(bits / 64))
}

// 3. Build segment, in the slot that was found, if any.
pub(crate) fn build_segment(
    t: &mut [u32],
    on: Footing<'_>,
    slot: Option<u32>,
    size: u32,
    bits: u32,
    sharable: u32,
) -> Ended
    requires { Sound t.old on.n on.me × (slot ≡ slot_found (configuration t.old) (words_of t.old) segment on.me.cell) }
    ensures { (buffer : List ℕ) → Left t.old (λ h q. build_segment h q on.entry.me.slot size bits sharable buffer) (told result) t.new }
{
    let me = on.me.slot;
    refuse([
        ((MAX_BITS < bits) | (1 < sharable), Error::XbParam),
        (!is_size(size), Error::XbSgSz),
    ])?;
    let d = free_entry(t, on.n, Kind::Segment, me).ok_or(Error::XodSpace)?;
    let i = slot.ok_or(Error::XnoSpace)?;
    let serial = read(t, on.n, Kind::Segment, i, SERIAL) + 1;
    let owner = read(t, on.n, Kind::Process, me, OWNER);
    let group = read(t, on.n, Kind::Process, me, GROUP);
    let s = seid(SEGMENT_CLASS, i, serial);
    make(
        t,
        on.n.record_at(Kind::Segment, i),
        serial,
        owner,
        group,
        bits,
        sharable,
        size,
        1,
    );
    enter(
        t,
        on.n.entry_at(Kind::Segment, me, d),
        s,
        owner_access(bits),
    );
    Ok((s, d))
}

// 4. Rendezvous. Any access needs flow to the caller; writing the own cell too. The entries are searched last, for one that nothing else refuses.
pub(crate) fn rendezvous(
    t: &mut [u32],
    on: Footing<'_>,
    m: [[bool; MAX_CELLS]; MAX_CELLS],
    a: u32,
    b: u32,
) -> Ended
    requires { Stands t.old on m }
    ensures { (buffer : List ℕ) → Left t.old (λ h q. rendezvous h q on.entry.me.slot a b buffer) (told result) t.new }
{
    let s = or_self(t, on, a);
    let g = look(t, on, &m, Kind::Segment, s);
    let sharable = read(t, on.n, Kind::Segment, g.slot, SHARABLE);
    refuse([((b == 0) | !valid_access(b), Error::XbParam)])?;
    find(g, Kind::Segment, !g.flows | (asks_write(b) & !g.own))?;
    refuse([
        (sharable == 0, Error::XsgNoAcc),
        (
            lacks(g.rights, asks_read(b), asks_write(b)),
            Error::XdapViol,
        ),
    ])?;
    refuse([(already_held(t, on, s), Error::XdupSg)])?;
    let d = free_entry(t, on.n, Kind::Segment, on.me.slot).ok_or(Error::XodSpace)?;
    let entry = on.n.entry_at(Kind::Segment, on.me.slot, d);
    let object = on.n.record_at(Kind::Segment, g.slot);
    take_up(t, Kind::Segment, entry, s, b, object, g.own);
    Ok((d, 0))
}

// 6. Set access.
pub(crate) fn set_access(
    t: &mut [u32],
    on: Footing<'_>,
    m: [[bool; MAX_CELLS]; MAX_CELLS],
    a: u32,
    b: u32,
) -> Ended
    requires { Stands t.old on m }
    ensures { (buffer : List ℕ) → Left t.old (λ h q. set_access h q on.entry.me.slot a b buffer) (told result) t.new }
{
    let d = entry_of(t, on.n, Kind::Segment, on.me.slot, a);
    let g = look(t, on, &m, Kind::Segment, d.held);
    refuse([
        (!valid_access(b), Error::XbParam),
        (ENTRIES <= a as usize, Error::XnSgDes),
        (d.held == 0, Error::XbSgDes),
        (!g.present, Error::XbSgSd),
        (asks_write(b) & !g.own, Error::XnoAcc),
        (
            lacks(g.rights, asks_read(b), asks_write(b)),
            Error::XdapViol,
        ),
    ])?;
    put(t, on.n.entry_at(Kind::Segment, on.me.slot, a) + 1, b);
    Ok((0, 0))
}

// 18. Access of a designator: as stored, limited by today's bits.
pub(crate) fn access_of(
    t: &[u32],
    on: Footing<'_>,
    m: [[bool; MAX_CELLS]; MAX_CELLS],
    a: u32,
) -> Ended
    requires { Stands t.now on m }
    ensures { (buffer : List ℕ) → Left t.now (λ h q. access_of h q on.entry.me.slot a buffer) (told result) t.now }
{
    let d = entry_of(t, on.n, Kind::Segment, on.me.slot, a);
    let g = look(t, on, &m, Kind::Segment, d.held);
    refuse([
        (ENTRIES <= a as usize, Error::XnSgDes),
        (d.held == 0, Error::XbSgDes),
        (!g.present, Error::XbSgSd),
    ])?;
    let read = asks_read(d.used) & may_read(g.rights);
    let write = asks_write(d.used) & may_write(g.rights);
    Ok((access(read, write), 0))
}
