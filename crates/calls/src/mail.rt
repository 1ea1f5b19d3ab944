// Messages: post and receive.
ghost use Rattle.std.specs.Prelude.{◌≡◌, ◌+◌, ◌*◌, ◌≤◌, ◌<◌, ◌^◌, length};
ghost use Rattle.rules.specs.Words.{word4};
ghost use Rattle.rules.specs.Layout.{configuration, messages, message_words};
ghost use Rattle.rules.specs.Rule.{first_refusal, write};
ghost use Rattle.rules.specs.Call15.{queued, post};
ghost use Rattle.rules.specs.Call16.{receive};
ghost use Rattle.calls.specs.World.{Stands, Known, Sound};
ghost use Rattle.calls.specs.Handed.{Handed};
ghost use Rattle.calls.specs.Left.{Left, told, rule_at, buffer_of};
ghost use Rattle.calls.specs.Refusing.{found};
ghost use Rattle.calls.specs.Calls.{post_tests};
ghost use Rattle.calls.specs.Mail.{shown_at};

use crate::Footing;
use crate::base::{Ended, read, refuse, write};
use crate::entries::{clear, put_four};
use crate::error::Error;
use crate::objects::{Seen, flow_at, look, or_self};
use layout::{Header, Kind};
use rights::may_write;
use rules::{MAX_CELLS, MESSAGE_WORDS, MESSAGES, MESSAGES_AT, QUEUE};
use words::{byte, put_bytes, word};

// Bytes of a word, of a message's text, and of a message with its sender.
const WORD_BYTES: usize = 4;

const TEXT_BYTES: usize = 12;

const MESSAGE_BYTES: usize = 16;

// The message at a place, sender and text, high byte first.
fn show(t: &[u32], from: usize, b: &mut [u8])
    requires { from < 2 ^ 44 }
    ensures { b.new ≡ shown_at t.now from b.old message_words }
{
    for i in 0..MESSAGE_WORDS {
        put_bytes(b, WORD_BYTES * i, &word(t, from + i).to_be_bytes());
    }
}

// 16. Receive.
pub(crate) fn receive(t: &mut [u32], on: Footing<'_>, buffer: &mut [u8]) -> Ended
    requires { Sound t.old on.n on.me }
    ensures { Left t.old (λ h q. receive h q on.entry.me.slot buffer.old) (told result) t.new × (buffer.new ≡ buffer_of buffer.old (rule_at t.old (λ h q. receive h q on.entry.me.slot buffer.old))) }
{
    let me = on.me.slot;
    let waiting = read(t, on.n, Kind::Process, me, QUEUE);
    refuse([
        (buffer.len() != MESSAGE_BYTES, Error::XbSz),
        (waiting == 0, Error::XbNoMes),
    ])?;
    let from = on.n.record_at(Kind::Process, me) + MESSAGES_AT;
    show(t, from, buffer);
    write(t, on.n, Kind::Process, me, QUEUE, waiting.saturating_sub(1));
    let moved = MESSAGE_WORDS * (MESSAGES - 1);
    let next = from + MESSAGE_WORDS;
    t.copy_within(next..next + moved, from);
    clear(t, from + moved, MESSAGE_WORDS);
    Ok((0, 0))
}

// Four bytes as a word, the most significant first.
fn word_at(b: &[u8], i: usize) -> u32
    requires { i < 2 ^ 32 }
    ensures { result ≡ word4 b.now i }
{
    u32::from_be_bytes([byte(b, i), byte(b, i + 1), byte(b, i + 2), byte(b, i + 3)])
}

// A message of the sender me, behind those that wait in q's queue.
fn deliver(t: &mut [u32], n: Header, q: u32, me: u32, waiting: u32, b: &[u8])
    requires { Known t.old n × (waiting < messages) }
    ensures { t.new ≡ write (configuration t.old) t.old (queued me q b.now waiting) }
{
    let from = n.record_at(Kind::Process, q) + (MESSAGES_AT + MESSAGE_WORDS * waiting as usize);
    write(t, n, Kind::Process, q, QUEUE, waiting + 1);
    put_four(t, from, me, word_at(b, 0), word_at(b, 4), word_at(b, 8));
}

// What refuses a post to the process that is seen. A higher receiver's absence, bits or full queue are not told.
fn may_post(to: Seen, bytes: usize, flows: bool, allowed: bool, full: bool) -> Result<(), Error>
    ensures { found result ≡ first_refusal (post_tests to bytes flows allowed full) }
{
    refuse([
        (bytes != TEXT_BYTES, Error::XbSz),
        (!to.formed, Error::XbPrSd),
        (!flows, Error::XnoAcc),
        (to.own & !to.present, Error::XbPrSd),
        (to.own & !allowed, Error::XdapViol),
        (to.own & full, Error::XpostEh),
    ])
}

// 15. Post.
pub(crate) fn post(
    t: &mut [u32],
    on: Footing<'_>,
    m: [[bool; MAX_CELLS]; MAX_CELLS],
    a: u32,
    buffer: &[u8],
) -> Ended
    requires { Stands t.old on m }
    ensures { Left t.old (λ h q. post h q on.entry.me.slot a buffer.now) (told result) t.new }
{
    let s = or_self(t, on, a);
    let to = look(t, on, &m, Kind::Process, s);
    let waiting = read(t, on.n, Kind::Process, to.slot, QUEUE);
    let full = MESSAGES <= waiting as usize;
    let allowed = may_write(to.rights);
    let flows = flow_at(&m, on.me.cell, to.cell);
    may_post(to, buffer.len(), flows, allowed, full)?;
    let me = or_self(t, on, 0);
    if to.present & (allowed & !full) {
        deliver(t, on.n, to.slot, me, waiting, buffer);
    }
    Ok((0, 0))
}
