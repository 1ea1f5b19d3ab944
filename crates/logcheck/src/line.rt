// A line as it is shown: in a fixed amount of memory, and with nothing in it that could move the reader's screen.
ghost use Rattle.std.specs.Prelude.{◌≡◌, ◌≤◌, length, take};
ghost use Rattle.rules.specs.Finding.{said};
ghost use Rattle.checker.specs.Check.{meant};

use checker::Finding;

// The most that is shown of a line. Any line that is due fits.
const WIDTH: usize = 1200;

// A line as it is put together: what was put so far is the first `end` bytes.
#[derive(Drop)]
pub(crate) struct Line {
    bytes: [u8; WIDTH],
    end: usize,
    ghost within: { end ≤ length bytes },
}

// A byte as it is shown: any that could move the reader's screen or hide there is a question mark.
fn plain(b: u8) -> u8 {
    match b {
        b' '..=b'~' => b,
        _ => b'?',
    }
}

// What stands after the last newline.
pub(crate) fn last(text: &[u8]) -> &[u8] {
    text.rsplit(|b| *b == b'\n').next().unwrap_or_default()
}

impl Line {
    pub(crate) fn new() -> Line {
        Line {
            bytes: [0; WIDTH],
            end: 0,
        }
    }

    pub(crate) fn as_slice(&self) -> &[u8]
        ensures { result.now ≡ take self.now.end self.now.bytes }
    {
        &self.bytes[..self.end]
    }

    // Puts text up to a newline, as far as it finds room; answers whether the line is whole then.
    pub(crate) fn put_until(&mut self, text: &[u8]) -> bool {
        for b in text {
            if *b == b'\n' {
                return true;
            }
            self.end = output::put_byte(&mut self.bytes, self.end, plain(*b));
        }
        self.end == WIDTH
    }

    // Puts the line that says what was found.
    pub(crate) fn put_found(&mut self, finding: Finding)
        ensures { take self.new.end self.new.bytes ≡ said (meant finding) }
    {
        self.end = checker::put_finding(&mut self.bytes, 0, finding);
    }
}
