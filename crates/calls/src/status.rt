// Status.
ghost use Rattle.std.specs.Prelude.{◌≡◌, ◌<◌};
ghost use Rattle.rules.specs.Claim.{Holds};
ghost use Rattle.rules.specs.Layout.{cells, configuration};
ghost use Rattle.rules.specs.WellFormed.{configured};
ghost use Rattle.rules.specs.Call17.{status_of, status};
ghost use Rattle.layout.specs.Kinds.{kind_of};
ghost use Rattle.calls.specs.World.{Stands, Sound};
ghost use Rattle.calls.specs.Handed.{Handed};
ghost use Rattle.calls.specs.Left.{told, answer_of, buffer_of, rule_at};
ghost use Rattle.calls.specs.Told.{told_at};

use crate::Footing;
use crate::base::{Ended, read, refuse};
use crate::error::Error;
use crate::objects::{find, kind_by, look, or_self};
use layout::Kind;
use levels::level_at;
use rules::{GROUP, MAX_CELLS, OWNER};

const STATUS_BYTES: usize = 16;

// The sixteen bytes, high byte first.
fn tell(t: &[u32], class: u32, cell: u32, owner: u32, group: u32, bits: u32) -> [u8; STATUS_BYTES]
    requires { Holds (configured (configuration t.now)) × (class < 256) × (cell < cells (configuration t.now)) }
    ensures { result ≡ told_at (configuration t.now) class cell owner group bits }
{
    let level = level_at(t, cell);
    let [_, _, owner_high, owner_low] = owner.to_be_bytes();
    let [_, _, group_high, group_low] = group.to_be_bytes();
    let [_, _, bits_high, bits_low] = bits.to_be_bytes();
    let [c3, c2, c1, c0] = level.compartments.to_be_bytes();
    [
        class as u8,
        cell as u8,
        owner_high,
        owner_low,
        group_high,
        group_low,
        bits_high,
        bits_low,
        level.security as u8,
        level.integrity as u8,
        c3,
        c2,
        c1,
        c0,
        0,
        0,
    ]
}

fn status_of(
    t: &[u32],
    on: Footing<'_>,
    m: [[bool; MAX_CELLS]; MAX_CELLS],
    kind: Kind,
    s: u32,
    buffer: &mut [u8],
) -> Ended
    requires { Stands t.now on m }
    ensures { (told result ≡ answer_of (rule_at t.now (λ h q. status_of h q on.entry.me.slot s buffer.old (kind_of kind)))) × (buffer.new ≡ buffer_of buffer.old (rule_at t.now (λ h q. status_of h q on.entry.me.slot s buffer.old (kind_of kind)))) }
{
    let x = look(t, on, &m, kind, s);
    refuse([(buffer.len() != STATUS_BYTES, Error::XbSz)])?;
    find(x, kind, !x.flows)?;
    let i = x.slot;
    let owner = read(t, on.n, kind, i, OWNER);
    let group = read(t, on.n, kind, i, GROUP);
    let bits = read(t, on.n, kind, i, kind.bits_word());
    let told = tell(t, kind.class(), x.cell, owner, group, bits);
    buffer.copy_from_slice(&told);
    Ok((0, 0))
}

// 17. Status, of the kind that the seid's class names.
pub(crate) fn status(
    t: &[u32],
    on: Footing<'_>,
    m: [[bool; MAX_CELLS]; MAX_CELLS],
    a: u32,
    buffer: &mut [u8],
) -> Ended
    requires { Stands t.now on m }
    ensures { (told result ≡ answer_of (rule_at t.now (λ h q. status h q on.entry.me.slot a buffer.old))) × (buffer.new ≡ buffer_of buffer.old (rule_at t.now (λ h q. status h q on.entry.me.slot a buffer.old))) }
{
    let s = or_self(t, on, a);
    let kind = kind_by(s);
    status_of(t, on, m, kind, s, buffer)
}
