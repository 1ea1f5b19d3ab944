// Files: create, open, link, unlink; set bits; and giving up an entry, which closes a file or releases a segment.
ghost use Rattle.std.specs.Prelude.{◌≡◌, true, ◌&&◌, List, ℕ};
ghost use Rattle.rules.specs.Layout.{file, configuration, flow_matrix};
ghost use Rattle.rules.specs.Seid.{or_self};
ghost use Rattle.rules.specs.Rule.{first_refusal, write};
ghost use Rattle.rules.specs.Call07.{create};
ghost use Rattle.rules.specs.Call08.{clashes, open_file, open_subtype, open_seid};
ghost use Rattle.rules.specs.Call10.{link};
ghost use Rattle.rules.specs.Call11.{unlinked, unlink};
ghost use Rattle.rules.specs.Call12.{is_shared, set_bits_of, set_bits};
ghost use Rattle.layout.specs.Kinds.{kind_of};
ghost use Rattle.calls.specs.World.{Stands, Known, Sound, words_of, holdable, Clashable};
ghost use Rattle.calls.specs.Handed.{Handed};
ghost use Rattle.calls.specs.Left.{Left, told};
ghost use Rattle.calls.specs.Refusing.{found, number_of};
ghost use Rattle.calls.specs.Quick.{Tells};
ghost use Rattle.calls.specs.Seen.{slot_found};
ghost use Rattle.calls.specs.Calls.{give_up_rule, open_tests};

use crate::Footing;
use crate::base::{Ended, read, refuse, write};
use crate::entries::{enter, entry_from, entry_of, free_record, give_up_entry, make, take_up};
use crate::error::Error;
use crate::objects::{Seen, find, kind_by, look, or_self, own};
use crate::room::{free_entry, run_of};
use crate::subtypes::{look_subtype, may_create_under, may_open_under};
use ids::seid;
use layout::{Header, Kind, class_of};
use modes::{clash, reads, valid, writes};
use rights::lacks;
use rules::{
    ENTRIES, FILE_CLASS, FILE_WORDS, GROUP, LINKS, MAX_BITS, MAX_CELLS, MAX_LINKS, MAX_SLOTS,
    OPENS, OWNER, SERIAL, SHARABLE, SUBTYPE, SUBTYPE_CLASS,
};
use words::{one_less, put, wide};

// 5. Release segment, and 9. Close: the caller's entry a is given up. Past the last entry, and empty, have an error each.
pub(crate) fn give_up(
    t: &mut [u32],
    on: Footing<'_>,
    kind: Kind,
    a: u32,
    beyond: Error,
    empty: Error,
) -> Ended
    requires { Sound t.old on.n on.me × (holdable (kind_of kind) ≡ true) }
    ensures { (buffer : List ℕ) → Left t.old (λ h q. give_up_rule h q (kind_of kind) on.entry.me.slot a (number_of beyond) (number_of empty) buffer) (told result) t.new }
{
    let d = entry_of(t, on.n, kind, on.me.slot, a);
    refuse([(ENTRIES <= wide(a), beyond), (d.held == 0, empty)])?;
    give_up_entry(t, on, kind, on.me.slot, a, d.held);
    Ok((0, 0))
}

// 7. Create, in the slot that was found, if any; `by` names the descriptor of the new file's subtype.
pub(crate) fn create(
    t: &mut [u32],
    on: Footing<'_>,
    slot: Option<u32>,
    a: u32,
    b: u32,
    by: u32,
) -> Ended
    requires { Sound t.old on.n on.me × (slot ≡ slot_found (configuration t.old) (words_of t.old) file on.me.cell) }
    ensures { (buffer : List ℕ) → Left t.old (λ h q. create h q on.entry.me.slot a b by buffer) (told result) t.new }
{
    let me = on.me.slot;
    refuse([
        (MAX_BITS < a, Error::XbParam),
        (!valid(b), Error::XbadModes),
    ])?;
    let under = may_create_under(t, on, by)?;
    let d = free_entry(t, on.n, Kind::File, me).ok_or(Error::XodSpace)?;
    let i = slot.ok_or(Error::XnoSpace)?;
    let serial = read(t, on.n, Kind::File, i, SERIAL) + 1;
    let owner = read(t, on.n, Kind::Process, me, OWNER);
    let group = read(t, on.n, Kind::Process, me, GROUP);
    let s = seid(FILE_CLASS, i, serial);
    let at = on.n.record_at(Kind::File, i);
    make(t, at, serial, owner, group, a, 0, 0, 1);
    put(t, at + SUBTYPE, under);
    enter(t, on.n.entry_at(Kind::File, me, d), s, b);
    Ok((s, d))
}

// "The own cell's live descriptors are searched process by process and entry by entry up to the first clash." At most so many of them hold s: where
// that is none nothing is searched, and when that many were met the search ends. Two nested loops that a label leaves: 01 names that form.
fn any_clash(t: &[u32], on: Footing<'_>, s: u32, b: u32, most: u32) -> bool
    requires { Sound t.now on.n on.me × Clashable t.now on.n on.me.cell s b most }
    ensures { result ≡ clashes (configuration t.now) (words_of t.now) on.entry.me.cell s b }
{
    let mut left = most;
    if left == 0 {
        return false;
    }
    let run = run_of(t, on.n, Kind::Process, on.me.cell);
    let mut found = false;
    'search: for p in 0..run.count {
        let first = on.n.entry_at(Kind::File, run.from + p, 0);
        for d in 0..ENTRIES {
            let x = entry_from(t, first, d);
            if x.held == s {
                if clash(x.used, b) {
                    found = true;
                    break 'search;
                }
                left -= 1;
                if left == 0 {
                    break 'search;
                }
            }
        }
    }
    found
}

// Whether an open of what is the caller's own or not clashes: where that is not known already, it is searched for. "Readers in higher cells neither block
// nor are blocked": the search is made in the own cell alone.
fn is_busy(
    t: &[u32],
    on: Footing<'_>,
    own: bool,
    s: u32,
    b: u32,
    most: u32,
    foretold: Option<bool>,
) -> bool
    requires { Sound t.now on.n on.me × (own ≡ true → Clashable t.now on.n on.me.cell s b most) × Tells t.now on.me.cell s b foretold }
    ensures { result ≡ own && clashes (configuration t.now) (words_of t.now) on.entry.me.cell s b }
{
    own && match foretold {
        Some(clash) => clash,
        None => any_clash(t, on, s, b, most),
    }
}

// What refuses before the search: the modes, "find" (a read needs flow to the caller, any write the own cell), and the owner bits.
fn may_open(f: Seen, b: u32) -> Result<(), Error>
    ensures { found result ≡ first_refusal (open_tests f b) }
{
    let forbidden = !f.flows | (writes(b) & !f.own);
    refuse([(!valid(b), Error::XbadModes)])?;
    find(f, Kind::File, forbidden)?;
    refuse([(lacks(f.rights, reads(b), writes(b)), Error::XdapViol)])
}

// 8. Open, of a file; `by` names the descriptor of its subtype. The file's opens say how many descriptors of its cell hold it.
fn open_file(
    t: &mut [u32],
    on: Footing<'_>,
    m: &[[bool; MAX_CELLS]; MAX_CELLS],
    s: u32,
    b: u32,
    by: u32,
    foretold: Option<bool>,
) -> Ended
    requires { Stands t.old on m.now × Tells t.old on.me.cell s b foretold }
    ensures { (buffer : List ℕ) → Left t.old (λ h q. open_file h q on.entry.me.slot s b by buffer) (told result) t.new }
{
    let f = look(t, on, m, Kind::File, s);
    let opens = read(t, on.n, Kind::File, f.slot, OPENS);
    let under = read(t, on.n, Kind::File, f.slot, SUBTYPE);
    may_open(f, b)?;
    may_open_under(t, on.n, on.me.slot, under, b, by)?;
    let clashing = is_busy(t, on, f.own, s, b, opens, foretold);
    refuse([(clashing, Error::Xbusy)])?;
    let d = free_entry(t, on.n, Kind::File, on.me.slot).ok_or(Error::XodSpace)?;
    let entry = on.n.entry_at(Kind::File, on.me.slot, d);
    let object = on.n.record_at(Kind::File, f.slot);
    take_up(t, Kind::File, entry, s, b, object, f.own);
    Ok((d, 0))
}

// No more descriptors hold a subtype than there are: it has no count.
const MOST_DESCRIPTORS: u32 = ENTRIES as u32 * MAX_SLOTS as u32;

// 8. Open, of a subtype.
fn open_subtype(
    t: &mut [u32],
    on: Footing<'_>,
    m: &[[bool; MAX_CELLS]; MAX_CELLS],
    s: u32,
    b: u32,
) -> Ended
    requires { Sound t.old on.n on.me × (m.now ≡ flow_matrix (configuration t.old)) }
    ensures { (buffer : List ℕ) → Left t.old (λ h q. open_subtype h q on.entry.me.slot s b buffer) (told result) t.new }
{
    let f = look_subtype(t, on, m, s);
    may_open(f, b)?;
    let clashing = is_busy(t, on, f.own, s, b, MOST_DESCRIPTORS, None);
    refuse([(clashing, Error::Xbusy)])?;
    let d = free_entry(t, on.n, Kind::File, on.me.slot).ok_or(Error::XodSpace)?;
    enter(t, on.n.entry_at(Kind::File, on.me.slot, d), s, b);
    Ok((d, 0))
}

// 8. Open, by the seid's class.
pub(crate) fn open(
    t: &mut [u32],
    on: Footing<'_>,
    m: [[bool; MAX_CELLS]; MAX_CELLS],
    a: u32,
    b: u32,
    by: u32,
    foretold: Option<bool>,
) -> Ended
    requires { Stands t.old on m × Tells t.old on.me.cell (or_self (words_of t.old) on.me.slot a) b foretold }
    ensures { (buffer : List ℕ) → Left t.old (λ h q. open_seid h q on.entry.me.slot a b by buffer) (told result) t.new }
{
    let s = or_self(t, on, a);
    if class_of(s) == SUBTYPE_CLASS {
        return open_subtype(t, on, &m, s, b);
    }
    open_file(t, on, &m, s, b, by, foretold)
}

// 10. Link.
pub(crate) fn link(
    t: &mut [u32],
    on: Footing<'_>,
    m: [[bool; MAX_CELLS]; MAX_CELLS],
    a: u32,
) -> Ended
    requires { Stands t.old on m }
    ensures { (buffer : List ℕ) → Left t.old (λ h q. link h q on.entry.me.slot a buffer) (told result) t.new }
{
    let s = or_self(t, on, a);
    let f = look(t, on, &m, Kind::File, s);
    let links = read(t, on.n, Kind::File, f.slot, LINKS);
    own(f, Kind::File)?;
    refuse([(links == MAX_LINKS, Error::XbadLink)])?;
    write(t, on.n, Kind::File, f.slot, LINKS, links + 1);
    Ok((0, 0))
}

// One link less. "With links and opens 0 the file is freed."
fn drop_link(t: &mut [u32], n: Header, i: u32)
    requires { Known t.old n }
    ensures { t.new ≡ write (configuration t.old) t.old (unlinked (words_of t.old) i) }
{
    let links = read(t, n, Kind::File, i, LINKS);
    let opens = read(t, n, Kind::File, i, OPENS);
    if (links == 1) & (opens == 0) {
        free_record(t, n.record_at(Kind::File, i), FILE_WORDS);
    } else {
        write(t, n, Kind::File, i, LINKS, one_less(links));
    }
}

// 11. Unlink.
pub(crate) fn unlink(
    t: &mut [u32],
    on: Footing<'_>,
    m: [[bool; MAX_CELLS]; MAX_CELLS],
    a: u32,
) -> Ended
    requires { Stands t.old on m }
    ensures { (buffer : List ℕ) → Left t.old (λ h q. unlink h q on.entry.me.slot a buffer) (told result) t.new }
{
    let s = or_self(t, on, a);
    let f = look(t, on, &m, Kind::File, s);
    let links = read(t, on.n, Kind::File, f.slot, LINKS);
    own(f, Kind::File)?;
    refuse([(links == 0, Error::XbadLink)])?;
    drop_link(t, on.n, f.slot);
    Ok((0, 0))
}

// A sharable segment. It goes by the flag alone, whoever holds it.
fn is_shared(t: &[u32], n: Header, kind: Kind, i: u32) -> bool
    requires { Known t.now n }
    ensures { result ≡ is_shared (words_of t.now) (kind_of kind) i }
{
    match kind {
        Kind::Segment => read(t, n, Kind::Segment, i, SHARABLE) != 0,
        Kind::Process | Kind::File => false,
    }
}

// 12. Set bits, of a kind.
fn set_bits_of(
    t: &mut [u32],
    on: Footing<'_>,
    m: [[bool; MAX_CELLS]; MAX_CELLS],
    kind: Kind,
    s: u32,
    b: u32,
) -> Ended
    requires { Stands t.old on m }
    ensures { (buffer : List ℕ) → Left t.old (λ h q. set_bits_of h q on.entry.me.slot s b buffer (kind_of kind)) (told result) t.new }
{
    let x = look(t, on, &m, kind, s);
    let shared = is_shared(t, on.n, kind, x.slot);
    refuse([(MAX_BITS < b, Error::XbParam)])?;
    own(x, kind)?;
    refuse([(shared, Error::XshSg)])?;
    write(t, on.n, kind, x.slot, kind.bits_word(), b);
    Ok((0, 0))
}

// 12. Set bits, of the kind that the seid's class names.
pub(crate) fn set_bits(
    t: &mut [u32],
    on: Footing<'_>,
    m: [[bool; MAX_CELLS]; MAX_CELLS],
    a: u32,
    b: u32,
) -> Ended
    requires { Stands t.old on m }
    ensures { (buffer : List ℕ) → Left t.old (λ h q. set_bits h q on.entry.me.slot a b buffer) (told result) t.new }
{
    let s = or_self(t, on, a);
    let kind = kind_by(s);
    set_bits_of(t, on, m, kind, s, b)
}
