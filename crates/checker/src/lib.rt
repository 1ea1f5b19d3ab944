// Checks a recorded listing against what the rules give for an input: pieces of the input and pieces of what is recorded go in, of any size, and a finding comes out.
// The caller lends the memory: a session's table, store and buffer, and an output with room for a line of text (`session`), where what is due waits for recorded bytes.
//
// A check that `wants_input` goes on by `due`, or by `last` where the input has ended; any other by `compare` with recorded bytes. Where bytes are left then and it
// does not want input, or where none are left and what is recorded has ended, `found` says what was found.
#![tactic(auto)]

ghost use Rattle.std.specs.Prelude.{◌≡◌, ◌==◌, ◌++◌, length, drop, take_while};
ghost use Rattle.std.specs.List.{zip};
ghost use Rattle.rules.specs.Replay.{decimal};
ghost use Rattle.output.specs.Wrote.{Wrote};
ghost use Rattle.session.specs.Turn.{blank_table};
ghost use Rattle.rules.specs.Finding.{said};
ghost use Rattle.checker.specs.Scan.{lines_in, ends_within, verdict};
ghost use Rattle.checker.specs.Check.{new_check, waits, wants_input, filled, fed, Feeds, last_check, last_output, waiting, agreed, met, coded, meant};

use session::Session;

// What is carried from piece to piece: the session that says what is due; where in the lent output the text stands that waits for recorded bytes, and the place past
// it; how many lines agree, and whether a part of the next one does.
#[derive(Clone, Copy)]
pub struct Check {
    pub session: Session,
    pub at: usize,
    pub end: usize,
    pub lines: u64,
    pub within: bool,
}

// A check, and how far a piece was used.
#[derive(Clone, Copy)]
pub struct Checked {
    pub check: Check,
    pub next: usize,
}

// What was found, with a line's number: all agree and this is the last; this one is wrong; they are missing from this one on; there is more after this one, the last.
#[derive(Clone, Copy, PartialEq, Eq)]
pub enum Finding {
    Agree(u64),
    Wrong(u64),
    Missing(u64),
    Over(u64),
}

impl Check {
    // Whether text that is due waits for recorded bytes.
    fn waits(self) -> bool
        ensures { result ≡ waits self }
    {
        self.at < self.end
    }

    // That text.
    fn waiting(self, out: &[u8]) -> &[u8]
        ensures { result.now ≡ waiting self out.now }
    {
        let end = self.end.min(out.len());
        &out[self.at.min(end)..end]
    }

    // A text that is due, of so many bytes, stands at the front of the output, and the session is this by then.
    fn filled(self, session: Session, end: usize) -> Check
        ensures { result ≡ filled self session end }
    {
        Check {
            session,
            at: 0,
            end,
            ..self
        }
    }

    // Whether the check goes on with the input: all that is due so far is compared, and more may come.
    pub fn wants_input(self) -> bool
        ensures { result ≡ wants_input self }
    {
        !(self.waits() || self.session.over)
    }
}

// A check at the start of an input, and of what is recorded.
pub fn start(table: &mut [u32]) -> Check
    ensures { (result ≡ new_check) × (table.new ≡ blank_table table.old) }
{
    Check {
        session: session::start(table),
        at: 0,
        end: 0,
        lines: 0,
        within: false,
    }
}

// Goes on in a piece of the input, from a place on, up to the next text that is due, or the piece's end.
#[tactic(auto, unfolding(crate::specs::Check::fed))]
pub fn due(
    x: Check,
    table: &mut [u32],
    store: &mut [u8],
    buf: &mut [u8],
    out: &mut [u8],
    s: &[u8],
    from: usize,
) -> Checked
    ensures { Feeds (fed x table.old store.old buf.old out.old (drop from s.now) from) result table.new store.new buf.new out.new }
{
    if x.waits() {
        return Checked {
            check: x,
            next: from,
        };
    }
    let r = session::step(x.session, table, store, buf, out, 0, s, from);
    Checked {
        check: x.filled(r.session, r.end),
        next: r.next,
    }
}

// The input has ended: the text that is due then, and nothing after it.
#[tactic(auto, unfolding(crate::specs::Check::last_check, crate::specs::Check::last_output))]
pub fn last(x: Check, out: &mut [u8]) -> Check
    ensures { (result ≡ last_check x out.old) × (out.new ≡ last_output x out.old) }
{
    if x.waits() {
        return x;
    }
    let end = session::finish(x.session, out);
    let over = Session {
        over: true,
        ..x.session
    };
    x.filled(over, end)
}

// How many bytes the two begin with alike.
fn alike(due: &[u8], recorded: &[u8]) -> usize
    ensures { result ≡ length (take_while (λ p. p.0 == p.1) (zip due.now recorded.now)) }
{
    due.iter().zip(recorded).take_while(|(b, c)| b == c).count()
}

// How many lines end in a text.
fn lines_in(text: &[u8]) -> usize
    ensures { result ≡ lines_in text.now }
{
    text.iter().filter(|b| **b == b'\n').count()
}

// Whether a part of a line stands at the end of a text, or stood before it where it is empty.
fn ends_within(text: &[u8], before: bool) -> bool
    ensures { result ≡ ends_within before text.now }
{
    match text {
        [.., last] => *last != b'\n',
        [] => before,
    }
}

// Compares the text that waits with a piece of what is recorded, from a place on, as far as they agree.
pub fn compare(x: Check, out: &[u8], r: &[u8], from: usize) -> Checked
    ensures { result ≡ met x (agreed x out.now r.now from) }
{
    let due = x.waiting(out);
    let recorded = &r[from.min(r.len())..];
    let n = alike(due, recorded);
    let same = &due[..n];
    Checked {
        check: Check {
            at: x.at + n,
            lines: x.lines.wrapping_add(lines_in(same) as u64),
            within: ends_within(same, x.within),
            ..x
        },
        next: from + n,
    }
}

// What is found, where the check wants no input; `more` says whether a recorded byte is left that does not agree.
#[tactic(auto, unfolding(crate::specs::Scan::verdict))]
pub fn found(x: Check, more: bool) -> Finding
    ensures { result ≡ coded (verdict x.lines x.within (waits x) more) }
{
    let n = x.lines;
    let last = n.saturating_sub(1);
    match (x.waits(), more, x.within) {
        (true, false, false) => Finding::Missing(n),
        (true, _, _) | (_, true, true) => Finding::Wrong(n),
        (false, true, false) => Finding::Over(last),
        (false, false, true) => Finding::Agree(n),
        (false, false, false) => Finding::Agree(last),
    }
}

// A number between two texts; answers the place past them.
fn put_around(out: &mut [u8], at: usize, front: &[u8], n: u64, back: &[u8]) -> usize
    ensures { Wrote out.old at (front.now ++ (decimal n ++ back.now)) result out.new }
{
    let next = output::put_bytes(out, at, front);
    let past = text::put_decimal(out, next, n);
    output::put_bytes(out, past, back)
}

// The line that says what was found; answers the place past it. (No `Display`: the clause names each byte in a lent slice, cut where the slice ends, and a `Display`
// would need a writer over the slice, with a law for each of its calls, to say the same.)
pub fn put_finding(out: &mut [u8], at: usize, f: Finding) -> usize
    ensures { Wrote out.old at (said (meant f)) result out.new }
{
    match f {
        Finding::Agree(n) => put_around(out, at, b"all lines agree, to line ", n, b"\n"),
        Finding::Wrong(n) => put_around(out, at, b"line ", n, b" is not what the rules give\n"),
        Finding::Missing(n) => put_around(out, at, b"lines are missing from line ", n, b" on\n"),
        Finding::Over(n) => put_around(out, at, b"there is more than is due after line ", n, b"\n"),
    }
}
