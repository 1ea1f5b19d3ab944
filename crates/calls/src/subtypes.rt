// Subtypes (02, CR 11): what a caller sees of one, and the descriptor of one that create and open take.
ghost use Rattle.std.specs.Prelude.{◌≡◌, ◌<◌, IfOk};
ghost use Rattle.rules.specs.Layout.{subtype_words, configuration, subtype_word, flow_matrix};
ghost use Rattle.rules.specs.Rule.{first_refusal};
ghost use Rattle.rules.specs.Call07.{subtype_for};
ghost use Rattle.calls.specs.World.{Known, Sound, words_of};
ghost use Rattle.calls.specs.Refusing.{found};
ghost use Rattle.calls.specs.Seen.{seen_subtype, capability_of};
ghost use Rattle.calls.specs.Calls.{create_under, open_under};

use crate::Footing;
use crate::base::{read, refuse};
use crate::entries::{Entry, entry_of};
use crate::error::Error;
use crate::objects::{Seen, flow_at, unseen};
use layout::{Header, Kind, class_of, index_of, is_seid, serial_of};
use modes::{reads, writes};
use rules::{
    ENTRIES, GROUP, MAX_CELLS, OWNER, SUBTYPE_BITS, SUBTYPE_CELL, SUBTYPE_CLASS, SUBTYPE_GROUP,
    SUBTYPE_OWNER, SUBTYPE_SERIAL,
};
use words::{wide, word};

// Word k of subtype i; past the last subtype there is none, and it is told as 0.
fn subtype_word(t: &[u32], n: Header, i: u32, k: usize) -> u32
    requires { Known t.now n × (k < subtype_words) }
    ensures { result ≡ subtype_word (configuration t.now) i k }
{
    if n.subtypes <= i {
        return 0;
    }
    word(t, n.subtype_at(i) + k)
}

// What the caller sees of the subtype that s names: a subtype is there as long as the table is, with serial 1.
pub(crate) fn look_subtype(
    t: &[u32],
    on: Footing<'_>,
    m: &[[bool; MAX_CELLS]; MAX_CELLS],
    s: u32,
) -> Seen
    requires { Sound t.now on.n on.me × (m.now ≡ flow_matrix (configuration t.now)) }
    ensures { result ≡ seen_subtype (configuration t.now) (words_of t.now) on.entry.me.slot s }
{
    if !is_seid(SUBTYPE_CLASS, on.n.subtypes, s) {
        return unseen();
    }
    let i = index_of(s);
    let cell = subtype_word(t, on.n, i, SUBTYPE_CELL);
    let owner = subtype_word(t, on.n, i, SUBTYPE_OWNER);
    let group = subtype_word(t, on.n, i, SUBTYPE_GROUP);
    let bits = subtype_word(t, on.n, i, SUBTYPE_BITS);
    let my_owner = read(t, on.n, Kind::Process, on.me.slot, OWNER);
    let my_group = read(t, on.n, Kind::Process, on.me.slot, GROUP);
    let flows = flow_at(m, cell, on.me.cell);
    let rights = rights::rights(my_owner, my_group, owner, group, bits);
    Seen {
        formed: true,
        slot: i,
        cell,
        own: cell == on.me.cell,
        flows,
        present: serial_of(s) == SUBTYPE_SERIAL,
        mine: owner == my_owner,
        rights,
    }
}

// The subtype that the descriptor `by` names, "a descriptor + 1, or 0 for none", holds, if it holds one, and its modes.
pub(crate) fn held_by(t: &[u32], n: Header, p: u32, by: u32) -> Option<Entry>
    requires { Known t.now n }
    ensures { result ≡ capability_of (words_of t.now) p by }
{
    if (by == 0) | (ENTRIES < wide(by)) {
        return None;
    }
    let d = entry_of(t, n, Kind::File, p, by - 1);
    if class_of(d.held) == SUBTYPE_CLASS {
        Some(d)
    } else {
        None
    }
}

// The new file's subtype, or 0; or what refuses a create under it. Create may name "a subtype of the caller's cell held for reading and writing".
pub(crate) fn may_create_under(t: &[u32], on: Footing<'_>, by: u32) -> Result<u32, Error>
    requires { Sound t.now on.n on.me }
    ensures refusals { found result ≡ first_refusal (create_under (configuration t.now) (words_of t.now) on.entry.me.slot by) }
    ensures subtype { IfOk result (λ s. s ≡ subtype_for (words_of t.now) on.entry.me.slot by) }
{
    if by == 0 {
        return Ok(0);
    }
    let x = held_by(t, on.n, on.me.slot, by).ok_or(Error::XbadStCap)?;
    let cell = subtype_word(t, on.n, index_of(x.held), SUBTYPE_CELL);
    let unfit = (cell != on.me.cell) | !(reads(x.used) & writes(x.used));
    refuse([(unfit, Error::XbadSubtypeMatch)])?;
    Ok(x.held)
}

// What refuses an open, with the modes b, of a file whose subtype is s; a file without one, 0, asks for nothing.
pub(crate) fn may_open_under(
    t: &[u32],
    n: Header,
    p: u32,
    s: u32,
    b: u32,
    by: u32,
) -> Result<(), Error>
    requires { Known t.now n }
    ensures { found result ≡ first_refusal (open_under (words_of t.now) p s b by) }
{
    if s == 0 {
        return Ok(());
    }
    let x = held_by(t, n, p, by).ok_or(Error::XbadStCap)?;
    let too_few = (reads(b) & !reads(x.used)) | (writes(b) & !writes(x.used));
    refuse([((x.held != s) | too_few, Error::XbadSubtypeMatch)])
}
