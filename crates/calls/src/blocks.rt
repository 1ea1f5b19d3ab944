// Blocks: view, read and write.
ghost use Rattle.std.specs.Prelude.{◌≡◌, ◌+◌, ◌-◌, ◌*◌, ◌≤◌, ◌<◌, ◌^◌, length, replicate};
ghost use Rattle.std.proofs.lemmas.List.Edits.{sets};
ghost use Rattle.rules.specs.Layout.{block_bytes, configuration, store_bytes};
ghost use Rattle.calls.specs.World.{Stands, Sound};
ghost use Rattle.calls.specs.Handed.{Handed};
ghost use Rattle.rules.specs.Rule.{first_refusal};
ghost use Rattle.calls.specs.Left.{told};
ghost use Rattle.calls.specs.Refusing.{found, number_of};
ghost use Rattle.calls.specs.Blocks.{held_for, unheld_for, tests_for, ReadLeft, WriteLeft};
ghost use Rattle.calls.specs.View.{ShownBy, part_of};

use crate::base::{Ended, read, refuse, write};
use crate::entries::{Entry, entry_of};
use crate::error::Error;
use crate::objects::{Seen, look};
use crate::{Caller, Footing, Part};
use layout::Kind;
use modes::{reads, writes};
use rights::lacks;
use rules::{BLOCK_BYTES, ENTRIES, MAX_CELLS, SIZE};
use words::{put_bytes, put_zeros};

// What a file's blocks are to be used for.
#[derive(Clone, Copy, PartialEq, Eq)]
pub(crate) enum Purpose {
    Read,
    Write,
}

impl Purpose {
    // An entry with these modes is held for it.
    fn is_held(self, modes: u32) -> bool
        ensures { result ≡ held_for self modes }
    {
        match self {
            Purpose::Read => reads(modes),
            Purpose::Write => writes(modes),
        }
    }

    // What refuses one by an entry that is not.
    fn refusal(self) -> Error
        ensures { number_of result ≡ unheld_for self }
    {
        match self {
            Purpose::Read => Error::XnotReadable,
            Purpose::Write => Error::XnotWritable,
        }
    }
}

// What refuses the use of a file by entry a, which is d: past the last entry or empty; not held so, which has a number of its own; stale; today's owner bits.
pub(crate) fn may_use(purpose: Purpose, a: u32, d: Entry, f: Seen) -> Result<(), Error>
    ensures { found result ≡ first_refusal (tests_for purpose a d f) }
{
    let reading = purpose == Purpose::Read;
    let writing = purpose == Purpose::Write;
    refuse([
        (ENTRIES <= a as usize, Error::XbadOd),
        (d.held == 0, Error::XbadOd),
        (!purpose.is_held(d.used), purpose.refusal()),
        (!f.present, Error::XnoObj),
        (lacks(f.rights, reading, writing), Error::XdapViol),
    ])
}

// Blocks from `size` up to b become zero.
fn fill_hole(stretch: &mut [u8], size: usize, b: usize)
    requires { b < 2 ^ 32 }
    ensures { stretch.new ≡ sets stretch.old (size * block_bytes) (replicate ((b - size) * block_bytes) 0) }
{
    if size < b {
        put_zeros(stretch, size * BLOCK_BYTES, (b - size) * BLOCK_BYTES);
    }
}

// Block b becomes what the buffer holds.
fn fill_block(stretch: &mut [u8], b: usize, buffer: &[u8])
    requires { b < 2 ^ 32 }
    ensures { stretch.new ≡ sets stretch.old (b * block_bytes) buffer.now }
{
    put_bytes(stretch, b * BLOCK_BYTES, buffer);
}

// The file's stretch, n bytes from f * n on, is lent to the hole filler and to the block writer.
fn write_store(store: &mut [u8], n: usize, f: usize, size: usize, b: usize, buffer: &[u8])
    requires { (f * n + n ≤ length store.old) × (size * block_bytes ≤ n) × (b * block_bytes + length buffer.now ≤ n) × (b < 2 ^ 32) }
    ensures { store.new ≡ sets (sets store.old (f * n + size * block_bytes) (replicate ((b - size) * block_bytes) 0)) (f * n + b * block_bytes) buffer.now }
{
    let from = f * n;
    let to = from + n;
    fill_hole(&mut store[from..to], size, b);
    fill_block(&mut store[from..to], b, buffer);
}

// A part that shows nothing.
pub(crate) fn hidden(error: Error) -> Part
    ensures { result ≡ part_of (number_of error) 0 0 }
{
    Part {
        error: error.number(),
        from: 0,
        count: 0,
    }
}

// Where block b of a file's stretch, n bytes from f * n on, begins in a store of so many bytes.
fn block_place(bytes: usize, n: usize, f: usize, b: usize) -> usize
    requires { (f * n + n ≤ «bytes») × (b * block_bytes + block_bytes ≤ n) }
    ensures { (result ≡ f * n + b * block_bytes) × (result + block_bytes ≤ «bytes») }
{
    f * n + b * BLOCK_BYTES
}

// Where block b of the file at entry a stands, for a caller that may read it: what refuses a read and a view alike.
pub(crate) fn shown(
    t: &[u32],
    on: Footing<'_>,
    m: [[bool; MAX_CELLS]; MAX_CELLS],
    store: &[u8],
    a: u32,
    b: u32,
) -> Result<usize, Error>
    requires { Stands t.now on m × (length store.now ≡ store_bytes (configuration t.now)) }
    ensures { ShownBy t.now store.now on.entry.me.slot a b result }
{
    let d = entry_of(t, on.n, Kind::File, on.me.slot, a);
    let f = look(t, on, &m, Kind::File, d.held);
    let size = read(t, on.n, Kind::File, f.slot, SIZE);
    may_use(Purpose::Read, a, d, f)?;
    refuse([
        (on.n.blocks <= b, Error::XbadBlockNo),
        (size <= b, Error::XendOfFile),
    ])?;
    let stretch = on.n.blocks as usize * BLOCK_BYTES;
    let file = f.slot as usize;
    Ok(block_place(store.len(), stretch, file, b as usize))
}

// 13. Read block.
pub(crate) fn read_block(
    t: &[u32],
    on: Footing<'_>,
    m: [[bool; MAX_CELLS]; MAX_CELLS],
    store: &[u8],
    a: u32,
    b: u32,
    buffer: &mut [u8],
) -> Ended
    requires { Stands t.now on m × (length store.now ≡ store_bytes (configuration t.now)) }
    ensures { ReadLeft t.now store.now on.entry.me.slot a b buffer.old (told result) buffer.new }
{
    refuse([(buffer.len() != BLOCK_BYTES, Error::XbSz)])?;
    let from = shown(t, on, m, store, a, b)?;
    put_bytes(buffer, 0, &store[from..from + BLOCK_BYTES]);
    Ok((0, 0))
}

// 14. Write block.
pub(crate) fn write_block(
    t: &mut [u32],
    on: Footing<'_>,
    m: [[bool; MAX_CELLS]; MAX_CELLS],
    store: &mut [u8],
    a: u32,
    b: u32,
    buffer: &[u8],
) -> Ended
    requires { Stands t.old on m × (length store.old ≡ store_bytes (configuration t.old)) }
    ensures { WriteLeft t.old store.old on.entry.me.slot a b buffer.now (told result) t.new store.new }
{
    let d = entry_of(t, on.n, Kind::File, on.me.slot, a);
    let f = look(t, on, &m, Kind::File, d.held);
    let size = read(t, on.n, Kind::File, f.slot, SIZE);
    refuse([(buffer.len() != BLOCK_BYTES, Error::XbSz)])?;
    may_use(Purpose::Write, a, d, f)?;
    refuse([(on.n.blocks <= b, Error::XbadBlockNo)])?;
    let stretch = on.n.blocks as usize * BLOCK_BYTES;
    write_store(
        store,
        stretch,
        f.slot as usize,
        size as usize,
        b as usize,
        buffer,
    );
    write(t, on.n, Kind::File, f.slot, SIZE, size.max(b + 1));
    Ok((0, 0))
}
