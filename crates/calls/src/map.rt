// The address map: remap, access of a page.
ghost use Rattle.std.specs.Prelude.{◌≡◌, List, ℕ};
ghost use Rattle.rules.specs.Layout.{segment, size, at, configuration};
ghost use Rattle.rules.specs.Rule.{first_refusal};
ghost use Rattle.rules.specs.Call19.{is_mapped, conflict, remap};
ghost use Rattle.rules.specs.Call20.{page_access};
ghost use Rattle.calls.specs.World.{Stands, Known, Sound, words_of};
ghost use Rattle.calls.specs.Handed.{Handed};
ghost use Rattle.calls.specs.Left.{Left, told};
ghost use Rattle.calls.specs.Refusing.{found};
ghost use Rattle.calls.specs.Map.{held, taken_by, run_of, remap_tests};

use crate::Footing;
use crate::base::{Ended, read, refuse};
use crate::entries::entry_of;
use crate::error::Error;
use crate::objects::look;
use crate::pages::{left, map_of, set_pages};
use crate::segments::access_of;
use layout::{Header, Kind};
use rules::{ENTRIES, MAX_CELLS, PAGE_BYTES, PAGES, PAGES_AT, SIZE};

// Some page holds designator d.
fn is_mapped(m: [u32; PAGES], d: u32) -> bool
    ensures { result ≡ is_mapped (held m) d }
{
    m.iter().any(|held| *held as usize == d as usize + 1)
}

// How many pages the segment in slot i covers: its size over 8,192, rounded up.
fn run_of(t: &[u32], n: Header, i: u32) -> u32
    requires { Known t.now n }
    ensures { result ≡ run_of (words_of t.now (at segment i size)) }
{
    read(t, n, Kind::Segment, i, SIZE).div_ceil(PAGE_BYTES)
}

// The n pages from b on pass page 7, or one of them is used.
fn conflict(m: [u32; PAGES], b: u32, n: u32) -> bool
    ensures { result ≡ conflict (held m) b n }
{
    let from = b as usize;
    let run = n as usize;
    PAGES < from + run || m[from..from + run].iter().any(|held| *held != 0)
}

// The map once v has come into the n pages from b on, if one comes.
fn taken(m: [u32; PAGES], comes: bool, v: u32, b: u32, n: u32) -> [u32; PAGES]
    ensures { result ≡ taken_by m comes v b n }
{
    let from = b as usize;
    let end = from + n as usize;
    let mut to = m;
    if comes {
        to[from.min(PAGES)..end.min(PAGES)].fill(v);
    }
    to
}

// What refuses call 19: s and u are what the two entries hold, m is the map, rest what the outgoing segment leaves of it.
fn may_remap(
    incoming: u32,
    b: u32,
    outgoing: u32,
    s: u32,
    u: u32,
    present: bool,
    run: u32,
    m: [u32; PAGES],
    rest: [u32; PAGES],
) -> Result<(), Error>
    ensures { found result ≡ first_refusal (remap_tests incoming b outgoing s u present run m rest) }
{
    let comes = (incoming as usize) < ENTRIES;
    let goes = (outgoing as usize) < ENTRIES;
    let beyond = (ENTRIES < incoming as usize) | (ENTRIES < outgoing as usize);
    refuse([
        (beyond, Error::XnSgDes),
        ((comes & (s == 0)) | (goes & (u == 0)), Error::XbSgDes),
        (comes & !present, Error::XbSgSd),
        (goes & !is_mapped(m, outgoing), Error::XoutSgAldUmp),
        (comes & is_mapped(rest, incoming), Error::XinSgAldMap),
        (comes & conflict(rest, b, run), Error::XvrtMmCfl),
    ])
}

// 19. Remap. The outgoing segment leaves first: the incoming one is judged by the rest of the map, and comes into it.
pub(crate) fn remap(
    t: &mut [u32],
    on: Footing<'_>,
    m: [[bool; MAX_CELLS]; MAX_CELLS],
    incoming: u32,
    b: u32,
    outgoing: u32,
) -> Ended
    requires { Stands t.old on m }
    ensures { (buffer : List ℕ) → Left t.old (λ h q. remap h q on.entry.me.slot incoming b outgoing buffer) (told result) t.new }
{
    let s = entry_of(t, on.n, Kind::Segment, on.me.slot, incoming).held;
    let u = entry_of(t, on.n, Kind::Segment, on.me.slot, outgoing).held;
    let g = look(t, on, &m, Kind::Segment, s);
    let run = run_of(t, on.n, g.slot);
    let map = map_of(t, on.n, on.me.slot);
    let rest = left(map, outgoing);
    may_remap(incoming, b, outgoing, s, u, g.present, run, map, rest)?;
    let comes = (incoming as usize) < ENTRIES;
    set_pages(
        t,
        on.n,
        on.me.slot,
        taken(rest, comes, incoming + 1, b, run),
    );
    Ok((0, 0))
}

// 20. Access of a page: as 18 for the designator that it holds.
pub(crate) fn page_access(
    t: &[u32],
    on: Footing<'_>,
    m: [[bool; MAX_CELLS]; MAX_CELLS],
    a: u32,
) -> Ended
    requires { Stands t.now on m }
    ensures { (buffer : List ℕ) → Left t.now (λ h q. page_access h q on.entry.me.slot a buffer) (told result) t.now }
{
    let w = read(t, on.n, Kind::Process, on.me.slot, PAGES_AT + a as usize);
    refuse([
        (PAGES <= a as usize, Error::XbParam),
        (w == 0, Error::XbSgDes),
    ])?;
    access_of(t, on, m, w.saturating_sub(1))
}
