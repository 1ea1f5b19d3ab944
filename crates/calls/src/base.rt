// Words of the table, read and written by kind, slot and place; and the two ways that a call ends.
ghost use Rattle.std.specs.Prelude.{◌≡◌, ◌-◌, ◌<◌, ◌^◌, set};
ghost use Rattle.rules.specs.Rule.{first_refusal};
ghost use Rattle.rules.specs.Layout.{at};
ghost use Rattle.layout.specs.Kinds.{kind_of};
ghost use Rattle.layout.specs.Header.{place_of};
ghost use Rattle.calls.specs.World.{Known, words_of};
ghost use Rattle.calls.specs.Left.{told};
ghost use Rattle.calls.specs.Refusing.{found, listed};

use crate::Answer;
use crate::error::Error;
use layout::{Header, Kind};
use rules::XOK;
use words::{put, word};

// How a call ends: with its two words, or refused.
pub(crate) type Ended = Result<(u32, u32), Error>;

// "Refusals in order": the first whose test holds. It is compiled where it is called: there the list is no array, but tests one after the other.
#[inline(always)]
pub(crate) fn refuse<const N: usize>(refusals: [(bool, Error); N]) -> Result<(), Error>
    ensures { found result ≡ first_refusal (listed refusals.entry) }
{
    for (test, error) in refusals {
        if test {
            return Err(error);
        }
    }
    Ok(())
}

// "An answer is the number and two words"; "a refusal gives two zeros."
pub(crate) fn told(ended: Ended) -> Answer
    ensures { result ≡ told ended }
{
    match ended {
        Ok((first, second)) => Answer {
            error: XOK,
            first,
            second,
        },
        Err(error) => Answer {
            error: error.number(),
            first: 0,
            second: 0,
        },
    }
}

// Word j of the record of slot i.
pub(crate) fn read(t: &[u32], n: Header, kind: Kind, i: u32, j: usize) -> u32
    requires { Known t.now n × (j < 2 ^ 40) }
    ensures { result ≡ words_of t.now (at (kind_of kind) i j) }
{
    word(t, n.record_at(kind, i) + j)
}

pub(crate) fn write(t: &mut [u32], n: Header, kind: Kind, i: u32, j: usize, v: u32)
    requires { j < 2 ^ 40 }
    ensures { t.new ≡ set t.old (place_of n (at (kind_of kind) i j)) v }
{
    put(t, n.record_at(kind, i) + j, v);
}
