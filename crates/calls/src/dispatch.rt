// A call on a judged table, by its name. Creating calls take the slot that is found, by a search or in a working slice that is lent; open is told what such a slice tells.
ghost use Rattle.std.specs.Prelude.{◌≡◌, length};
ghost use Rattle.rules.specs.Layout.{configuration, store_bytes};
ghost use Rattle.layout.specs.Header.{header_of};
ghost use Rattle.calls.specs.World.{Sound};
ghost use Rattle.calls.specs.Handed.{Handed};
ghost use Rattle.calls.specs.Left.{told};
ghost use Rattle.calls.specs.Codes.{code_number};
ghost use Rattle.calls.specs.Did.{Through, rule_in};
ghost use Rattle.calls.specs.Quick.{OwnIfLent};

use crate::base::Ended;
use crate::blocks::{read_block, write_block};
use crate::code::Code;
use crate::error::Error;
use crate::files::{create, give_up, link, open, set_bits, unlink};
use crate::mail::{post, receive};
use crate::map::{page_access, remap};
use crate::objects::or_self;
use crate::processes::{release_process, spawn};
use crate::quick::{foretold, slot_made};
use crate::regrade::regrade;
use crate::segments::{access_of, build_segment, rendezvous, set_access};
use crate::status::status;
use crate::{Caller, Footing};
use layout::{HALL_BYTES, Kind, header_of};
use rules::MAX_CELLS;

// It reads the header anew: handed on, it would be written to memory and read back in wider pieces.
pub(crate) fn carry_out(
    t: &mut [u32],
    store: &mut [u8],
    m: &[[bool; MAX_CELLS]; MAX_CELLS],
    hall: &[u8; HALL_BYTES],
    w: &[u32],
    me: Caller,
    code: Code,
    a: u32,
    b: u32,
    c: u32,
    buffer: &mut [u8],
) -> Ended
    requires { Sound t.old (header_of (configuration t.old)) me × Handed (configuration t.old) m.now hall.now × (length store.old ≡ store_bytes (configuration t.old)) × OwnIfLent t.old w.now }
    ensures { Through t.old store.old buffer.old (rule_in t.old store.old me.slot (code_number code) a b c buffer.old) (told result) t.new store.new buffer.new }
{
    let n = header_of(t);
    let on = Footing { n, hall, me };
    let q = slot_made(t, on, w, code, b);
    match code {
        Code::Spawn => spawn(t, on, q, a, b, c),
        Code::ReleaseProcess => release_process(t, on, *m, a),
        Code::BuildSegment => build_segment(t, on, q, a, b, c),
        Code::Rendezvous => rendezvous(t, on, *m, a, b),
        Code::ReleaseSegment => give_up(t, on, Kind::Segment, a, Error::XnSgDes, Error::XbSgDes),
        Code::SetAccess => set_access(t, on, *m, a, b),
        Code::Create => create(t, on, q, a, b, c),
        Code::Open => {
            let s = or_self(t, on, a);
            let x = foretold(t, on, w, s, b);
            open(t, on, *m, a, b, c, x)
        }
        Code::Close => give_up(t, on, Kind::File, a, Error::XbadOd, Error::XbadOd),
        Code::Link => link(t, on, *m, a),
        Code::Unlink => unlink(t, on, *m, a),
        Code::SetBits => set_bits(t, on, *m, a, b),
        Code::ReadBlock => read_block(t, on, *m, store, a, b, buffer),
        Code::WriteBlock => write_block(t, on, *m, store, a, b, buffer),
        Code::Post => post(t, on, *m, a, buffer),
        Code::Receive => receive(t, on, buffer),
        Code::Status => status(t, on, *m, a, buffer),
        Code::Access => access_of(t, on, *m, a),
        Code::Remap => remap(t, on, *m, a, b, c),
        Code::PageAccess => page_access(t, on, *m, a),
        Code::Regrade => regrade(t, store, on, *m, q, a, b, c, buffer),
    }
}
