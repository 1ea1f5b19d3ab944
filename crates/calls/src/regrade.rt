// The regrading desk: a process of the guard cell copies a file into another cell.
ghost use Rattle.std.specs.Prelude.{◌≡◌, ◌+◌, ◌*◌, ◌<◌, ◌^◌, length};
ghost use Rattle.std.proofs.lemmas.List.Edits.{sets};
ghost use Rattle.rules.specs.Words.{part, word2};
ghost use Rattle.rules.specs.Layout.{max_slots, max_serial, block_bytes, file, configuration, store_bytes, at, serial};
ghost use Rattle.rules.specs.Seid.{class, seid};
ghost use Rattle.layout.specs.Header.{record_of};
ghost use Rattle.calls.specs.World.{Stands, Known, Sound, words_of};
ghost use Rattle.calls.specs.Handed.{Handed};
ghost use Rattle.calls.specs.Entries.{made_at};
ghost use Rattle.calls.specs.Left.{told};
ghost use Rattle.calls.specs.Regrade.{Copyable, FoundIn, RegradeLeft};

use crate::Footing;
use crate::base::{Ended, read, refuse};
use crate::blocks::{Purpose, may_use};
use crate::entries::{entry_of, make};
use crate::error::Error;
use crate::objects::look;
use ids::seid;
use layout::{Header, Kind};
use rules::{BLOCK_BYTES, FILE_CLASS, MAX_BITS, MAX_CELLS, SERIAL, SIZE};
use words::byte;

// "Owner and group from a 4-byte buffer, high bytes first": where each begins.
const OWNER_BYTES: usize = 0;

const GROUP_BYTES: usize = 2;

const BUFFER_BYTES: usize = 4;

// Two bytes as a number, the most significant first.
fn two_bytes(b: &[u8], i: usize) -> u32
    requires { i < 2 ^ 32 }
    ensures { result ≡ word2 b.now i }
{
    u32::from(u16::from_be_bytes([byte(b, i), byte(b, i + 1)]))
}

// The first blocks of file f become those of another file, g: as many as its size. What is past them in either stretch stays where it is.
fn copy_blocks(store: &mut [u8], blocks: u32, f: u32, g: u32, size: u32)
    requires { Copyable store.old blocks f g size }
    ensures { store.new ≡ sets store.old (g * (blocks * block_bytes)) (part store.old (f * (blocks * block_bytes)) (size * block_bytes)) }
{
    let stretch = blocks as usize * BLOCK_BYTES;
    let from = f as usize * stretch;
    let to = g as usize * stretch;
    let n = size as usize * BLOCK_BYTES;
    store.copy_within(from..from + n, to);
}

// The record of the copy in slot i, "links 1, opens 0", and its seid.
fn make_copy(t: &mut [u32], n: Header, i: u32, owner: u32, group: u32, bits: u32, size: u32) -> u32
    requires { Known t.old n × (i < max_slots) × (words_of t.old (at file i serial) < max_serial) }
    ensures value { result ≡ seid (class file) i (words_of t.old (at file i serial) + 1) }
    ensures t_after { t.new ≡ made_at t.old (record_of n file i) (words_of t.old (at file i serial) + 1) owner group bits 1 size 0 }
{
    let serial = read(t, n, Kind::File, i, SERIAL) + 1;
    let from = n.record_at(Kind::File, i);
    make(t, from, serial, owner, group, bits, 1, size, 0);
    seid(FILE_CLASS, i, serial)
}

// 21. Regrade, into the slot that was found in cell b, if any.
pub(crate) fn regrade(
    t: &mut [u32],
    store: &mut [u8],
    on: Footing<'_>,
    m: [[bool; MAX_CELLS]; MAX_CELLS],
    slot: Option<u32>,
    a: u32,
    b: u32,
    c: u32,
    buffer: &[u8],
) -> Ended
    requires { Stands t.old on m × (length store.old ≡ store_bytes (configuration t.old)) × FoundIn t.old b slot }
    ensures { RegradeLeft t.old store.old on.entry.me.slot a b c buffer.now (told result) t.new store.new }
{
    let d = entry_of(t, on.n, Kind::File, on.me.slot, a);
    let f = look(t, on, &m, Kind::File, d.held);
    let size = read(t, on.n, Kind::File, f.slot, SIZE);
    let at_desk = on.n.guard == on.me.cell + 1;
    refuse([
        (!at_desk, Error::XnoSPriv),
        (buffer.len() != BUFFER_BYTES, Error::XbSz),
        ((on.n.cells <= b) | (MAX_BITS < c), Error::XbParam),
    ])?;
    may_use(Purpose::Read, a, d, f)?;
    let i = slot.ok_or(Error::XnoSpace)?;
    let owner = two_bytes(buffer, OWNER_BYTES);
    let group = two_bytes(buffer, GROUP_BYTES);
    let s = make_copy(t, on.n, i, owner, group, c, size);
    copy_blocks(store, on.n.blocks, f.slot, i, size);
    Ok((s, 0))
}
