// Numbers in seven-bit groups, low group first: read a byte at a time, and written.
#![tactic(auto)]

ghost use Rattle.std.specs.Prelude.{◌≡◌, ◌<◌, ◌^◌, drop};
ghost use Rattle.rules.specs.Replay.{max_groups, encoded};
ghost use Rattle.output.specs.Wrote.{Wrote};
ghost use Rattle.numerals.specs.Fed.{grown, fed_by, scan_of};

// A number of which count groups are read, and their value.
#[derive(Clone, Copy)]
pub struct Part {
    pub value: u32,
    pub count: u32,
}

impl Part {
    // A number of which nothing is read.
    pub const START: Part = Part { value: 0, count: 0 };
}

// What one more byte makes of it: three ways, which an Option inside a Result would have less plainly.
#[derive(Clone, Copy)]
pub enum Fed {
    More(Part),
    Done(u32),
    Bad,
}

// What some bytes make of it: the part before the byte that ended it, and the place past that byte.
#[derive(Clone, Copy)]
pub struct Scan {
    pub fed: Fed,
    pub part: Part,
    pub next: usize,
}

const MAX_GROUPS: u32 = 5;

// The value with one group more: each group has seven bits.
fn grow(p: Part, b: u8) -> u64
    requires { p.count < max_groups }
    ensures { (result ≡ grown p b) × (result < 2 ^ 36) }
{
    u64::from(p.value) + (u64::from(b % 128) << (7 * p.count))
}

// One byte more of a number.
#[tactic(auto, unfolding(crate::specs::Fed::fed_by))]
pub fn feed(p: Part, b: u8) -> Fed
    ensures { result ≡ fed_by p b }
{
    if MAX_GROUPS <= p.count {
        return Fed::Bad;
    }
    // Every number is below 2^32.
    let Ok(value) = u32::try_from(grow(p, b)) else {
        return Fed::Bad;
    };
    let count = p.count + 1;
    // A test to each way, for speed: a chain of conditions made reading a number a quarter slower.
    if 128 <= b {
        if MAX_GROUPS <= count {
            return Fed::Bad;
        }
        return Fed::More(Part { value, count });
    }
    // Shortest form: the last group is 0 only where it is the only one.
    if p.count == 0 || b != 0 {
        return Fed::Done(value);
    }
    Fed::Bad
}

// The bytes of a number from a place on, up to its last one, a bad one, or the end of the bytes.
pub fn feed_all(p: Part, s: &[u8], from: usize) -> Scan
    ensures { result ≡ scan_of p (drop from s.now) from }
{
    let mut part = p;
    for i in from..s.len() {
        match feed(part, s[i]) {
            Fed::More(q) => part = q,
            fed => return Scan {
                fed,
                part,
                next: i + 1,
            },
        }
    }
    Scan {
        fed: Fed::More(part),
        part,
        next: from.max(s.len()),
    }
}

// Writes a number at a place; answers the place past it.
pub fn put_number(out: &mut [u8], at: usize, v: u32) -> usize
    ensures { Wrote out.old at (encoded v) result out.new }
{
    let mut next = at;
    let mut rest = v;
    while 128 <= rest {
        next = output::put_byte(out, next, 128 + (rest % 128) as u8);
        rest /= 128;
    }
    output::put_byte(out, next, rest as u8)
}
