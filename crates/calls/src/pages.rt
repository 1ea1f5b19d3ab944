// The pages of a process: its address map, read, cleared of a designator, written.
ghost use Rattle.std.specs.Prelude.{◌≡◌};
ghost use Rattle.rules.specs.Layout.{configuration};
ghost use Rattle.rules.specs.Rule.{write};
ghost use Rattle.rules.specs.Find.{pages_set, pages_cleared};
ghost use Rattle.layout.specs.Kinds.{kind_of};
ghost use Rattle.calls.specs.World.{Known, words_of};
ghost use Rattle.calls.specs.Map.{held, map_of, left_by};

use crate::base::{read, write};
use layout::{Header, Kind};
use rules::{PAGES, PAGES_AT};

// What each page of process p holds.
pub(crate) fn map_of(t: &[u32], n: Header, p: u32) -> [u32; PAGES]
    requires { Known t.now n }
    ensures { result ≡ map_of (words_of t.now) p }
{
    let mut m = [0u32; PAGES];
    for g in 0..PAGES {
        m[g] = read(t, n, Kind::Process, p, PAGES_AT + g);
    }
    m
}

// "The outgoing segment leaves": every page that held designator d is free.
pub(crate) fn left(m: [u32; PAGES], d: u32) -> [u32; PAGES]
    ensures { result ≡ left_by m d }
{
    let mut rest = m;
    for g in 0..PAGES {
        rest[g] = if m[g] as usize == d as usize + 1 {
            0
        } else {
            m[g]
        };
    }
    rest
}

// The pages of process p come to hold these.
pub(crate) fn set_pages(t: &mut [u32], n: Header, p: u32, m: [u32; PAGES])
    requires { Known t.old n }
    ensures { t.new ≡ write (configuration t.old) t.old (pages_set p (held m)) }
{
    for (g, held) in m.iter().enumerate() {
        write(t, n, Kind::Process, p, PAGES_AT + g, *held);
    }
}

// "Giving up a designator clears its pages." A descriptor has none.
pub(crate) fn clear_pages(t: &mut [u32], n: Header, kind: Kind, p: u32, d: u32)
    requires { Known t.old n }
    ensures { t.new ≡ write (configuration t.old) t.old (pages_cleared (words_of t.old) (kind_of kind) p d) }
{
    match kind {
        Kind::Segment => {
            let m = map_of(t, n, p);
            set_pages(t, n, p, left(m, d));
        }
        Kind::Process | Kind::File => {}
    }
}
