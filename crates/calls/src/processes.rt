// Processes: spawn, release.
ghost use Rattle.std.specs.Prelude.{◌≡◌, List, ℕ, ◌<◌};
ghost use Rattle.rules.specs.Layout.{process, configuration, entries};
ghost use Rattle.rules.specs.Rule.{write};
ghost use Rattle.rules.specs.Call01.{spawn};
ghost use Rattle.rules.specs.Call02.{dropped, dropped_to, release_process};
ghost use Rattle.layout.specs.Kinds.{kind_of};
ghost use Rattle.calls.specs.World.{Stands, Sound, words_of};
ghost use Rattle.calls.specs.Handed.{Handed};
ghost use Rattle.calls.specs.Left.{Left, told};
ghost use Rattle.calls.specs.Seen.{slot_found};
ghost use Rattle.calls.specs.Holding.{Holding, HoldingAt};

use crate::Footing;
use crate::base::{Ended, read, refuse, write};
use crate::entries::{entry_of, free_record, give_up_entry, put_four};
use crate::error::Error;
use crate::objects::{look, or_self, own};
use ids::seid;
use layout::Kind;
use rules::{
    ENTRIES, GROUP, MAX_BITS, MAX_CELLS, MAX_OWNER, OWNER, PARENT, PROCESS_BITS, PROCESS_CLASS,
    PROCESS_WORDS, SERIAL,
};

// 1. Spawn, in the slot that was found, if any.
pub(crate) fn spawn(
    t: &mut [u32],
    on: Footing<'_>,
    slot: Option<u32>,
    a: u32,
    b: u32,
    bits: u32,
) -> Ended
    requires { Sound t.old on.n on.me × (slot ≡ slot_found (configuration t.old) (words_of t.old) process on.me.cell) }
    ensures { (buffer : List ℕ) → Left t.old (λ h x. spawn h x on.entry.me.slot a b bits buffer) (told result) t.new }
{
    let me = on.me.slot;
    let owner = read(t, on.n, Kind::Process, me, OWNER);
    let group = read(t, on.n, Kind::Process, me, GROUP);
    let foreign = (owner != 0) & ((a != owner) | (b != group));
    refuse([
        (
            (MAX_OWNER < a) | ((MAX_OWNER < b) | (MAX_BITS < bits)),
            Error::XbParam,
        ),
        (foreign, Error::XnoPriv),
    ])?;
    let i = slot.ok_or(Error::XnoProc)?;
    let parent = or_self(t, on, 0);
    let serial = read(t, on.n, Kind::Process, i, SERIAL) + 1;
    let at = on.n.record_at(Kind::Process, i);
    put_four(t, at, 1, serial, a, b);
    write(t, on.n, Kind::Process, i, PARENT, parent);
    write(t, on.n, Kind::Process, i, PROCESS_BITS, bits);
    Ok((seid(PROCESS_CLASS, i, serial), 0))
}

// Entry d of process q for objects of the kind is given up, if it holds anything.
fn drop_entry(t: &mut [u32], on: Footing<'_>, kind: Kind, q: u32, d: u32)
    requires { HoldingAt t.old on.n on.me (kind_of kind) q }
    ensures { t.new ≡ write (configuration t.old) t.old (dropped (configuration t.old) (words_of t.old) (kind_of kind) q d) }
{
    let x = entry_of(t, on.n, kind, q, d);
    if x.held != 0 {
        give_up_entry(t, on, kind, q, d, x.held);
    }
}

// All its entries of the kind, each on what those before it leave.
fn drop_entries(t: &mut [u32], on: Footing<'_>, kind: Kind, q: u32)
    requires { Holding t.old on.n on.me (kind_of kind) q }
    ensures { t.new ≡ write (configuration t.old) t.old (dropped_to (configuration t.old) (words_of t.old) (kind_of kind) q entries) }
{
    for d in 0..ENTRIES as u32 {
        drop_entry(t, on, kind, q, d);
    }
}

// 2. Release process.
pub(crate) fn release_process(
    t: &mut [u32],
    on: Footing<'_>,
    m: [[bool; MAX_CELLS]; MAX_CELLS],
    a: u32,
) -> Ended
    requires { Stands t.old on m }
    ensures { (buffer : List ℕ) → Left t.old (λ h q. release_process h q on.entry.me.slot a buffer) (told result) t.new }
{
    let s = or_self(t, on, a);
    let q = look(t, on, &m, Kind::Process, s);
    own(q, Kind::Process)?;
    let i = q.slot;
    drop_entries(t, on, Kind::File, i);
    drop_entries(t, on, Kind::Segment, i);
    free_record(t, on.n.record_at(Kind::Process, i), PROCESS_WORDS);
    Ok((0, 0))
}
