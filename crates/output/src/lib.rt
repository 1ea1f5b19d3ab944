// Bytes written one after the other into a lent buffer. What does not fit is dropped, so no caller owes room for it.
#![tactic(auto)]

ghost use Rattle.std.specs.Prelude.{[], ◌∷◌};
ghost use Rattle.output.specs.Wrote.{Wrote};

// Buffer and place stay two parameters: the signatures of put_byte and put_bytes may not change, nor those of put_number, put_line and the others
// above that go on from a place.

// b at a place; answers the place past it.
pub fn put_byte(out: &mut [u8], at: usize, b: u8) -> usize
    ensures { Wrote out.old at (b ∷ []) result out.new }
{
    if at < out.len() {
        out[at] = b;
        at + 1
    } else {
        at
    }
}

// The bytes of s from a place on, as far as they find room; answers the place past those that did.
pub fn put_bytes(out: &mut [u8], at: usize, s: &[u8]) -> usize
    ensures { Wrote out.old at s.now result out.new }
{
    words::put_bytes(out, at, s);
    at.max(at.saturating_add(s.len()).min(out.len()))
}
