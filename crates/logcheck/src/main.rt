// Checks last night's log: the replay input is the file that the first argument names, and the recorded listing comes on standard input. What is found is the first
// line on standard output (`checker::put_finding`). For a wrong line two more follow: as it is recorded, and as it is due. A file that cannot be opened or read is named
// on standard error, and no finding is given.
#![tactic(auto)]

ghost use Rattle.std.specs.Prelude.{◌≡◌, true};

mod line;
mod piece;

use checker::{Check, Finding};
use line::Line;
use piece::Piece;
use player::{STORE_BYTES, TABLE_WORDS, fail};
use session::MAX_BUFFER;
use std::env::{Env, FillError};
use std::fs::File;
use std::io;
use std::os::fd::AsRawFd;

// Room for what is due, and for a file's name.
const OUT_BYTES: usize = 4096;

const NAME_BYTES: usize = 4096;

// The highest number of the three standard streams, and the system's numbers of two errors: only from those come its own words.
const STANDARD_ERROR: i32 = 2;

const INVALID_ARGUMENT: i32 = 22;

const NAME_TOO_LONG: i32 = 36;

// What cannot be read, and why.
#[derive(Drop)]
enum Unreadable {
    Input(io::Error),
    Recorded(io::Error),
}

// A check of a log under way: the check, with the memory that is lent to its session and the output where what is due waits; and the pieces at hand, of the input and
// of what is recorded. Once the input has ended nothing more of it is wanted.
#[derive(Drop)]
struct Log {
    check: Check,
    table: [u32; TABLE_WORDS],
    store: [u8; STORE_BYTES],
    buf: [u8; MAX_BUFFER],
    out: [u8; OUT_BYTES],
    input: Piece,
    recorded: Piece,
    ghost closed: { input.ended ≡ true → check.session.over ≡ true },
}

impl Log {
    ghost use Rattle.std.specs.Prelude.{◌≡◌, false, None, IfOk};
    ghost use Rattle.checker.specs.Check.{wants_input};
    ghost use Rattle.logcheck.specs.Sought.{Fresh, told, Went, Sought};

    fn new() -> Log
        ensures { Fresh result }
    {
        let mut table = [0; TABLE_WORDS];
        let check = checker::start(&mut table);
        Log {
            check,
            table,
            store: [0; STORE_BYTES],
            buf: [0; MAX_BUFFER],
            out: [0; OUT_BYTES],
            input: Piece::new(),
            recorded: Piece::new(),
        }
    }

    // Goes on with the input.
    fn feed(&mut self, file: &File) -> io::Result<()>
        requires { wants_input self.old.check ≡ true }
        ensures { IfOk result (λ done. Went self.old None self.new) }
    {
        if self.input.is_used_up() {
            self.input.take_in(file)?;
            if self.input.ended {
                self.check = checker::last(self.check, &mut self.out);
            }
            return Ok(());
        }
        let from = self.input.next;
        let q = checker::due(
            self.check,
            &mut self.table,
            &mut self.store,
            &mut self.buf,
            &mut self.out,
            self.input.as_slice(),
            from,
        );
        self.check = q.check;
        self.input.next = q.next;
        Ok(())
    }

    // Goes on with what is recorded. Something is found where bytes of it are left that do not agree, or where it has ended.
    fn weigh(&mut self, rt: &HostRuntime) -> io::Result<Option<Finding>>
        requires { wants_input self.old.check ≡ false }
        ensures { IfOk result (λ found. Went self.old found self.new) }
    {
        if self.recorded.is_used_up() {
            self.recorded.take_in(rt.stdin())?;
            if self.recorded.ended {
                return Ok(Some(self.found()));
            }
            return Ok(None);
        }
        let q = checker::compare(
            self.check,
            &self.out,
            self.recorded.as_slice(),
            self.recorded.next,
        );
        self.check = q.check;
        self.recorded.next = q.next;
        if self.recorded.is_used_up() || q.check.wants_input() {
            return Ok(None);
        }
        Ok(Some(self.found()))
    }

    fn turn(&mut self, rt: &HostRuntime, file: &File) -> Result<Option<Finding>, Unreadable>
        ensures { IfOk result (λ found. Went self.old found self.new) }
    {
        if self.check.wants_input() {
            self.feed(file).map_err(Unreadable::Input)?;
            return Ok(None);
        }
        self.weigh(rt).map_err(Unreadable::Recorded)
    }

    // Turn after turn, until something is found, or cannot be read.
    fn seek(&mut self, rt: &HostRuntime, file: &File) -> Result<Option<Finding>, Unreadable>
        requires { Fresh self.old }
        ensures { IfOk result (λ found. Sought self.old found self.new) }
    {
        // A proved loop has to end, and nothing says that a file does: no run uses this number up.
        for _ in 0..u64::MAX {
            if let Some(finding) = self.turn(rt, file)? {
                return Ok(Some(finding));
            }
        }
        Ok(None)
    }

    // What is found, where what is recorded has ended, or a byte of it is left that does not agree.
    fn found(&self) -> Finding
        ensures { result ≡ told self.now }
    {
        checker::found(self.check, !self.recorded.ended)
    }

    // The line that is compared, as far as it agrees.
    fn agreed(&self) -> Line {
        let mut line = Line::new();
        let text = self.out.get(..self.check.at).unwrap_or(&self.out);
        line.put_until(line::last(text));
        line
    }

    // The line as it is recorded: what agrees of it with what is due, and then what follows in the piece at hand and after it.
    fn recorded_line(&mut self, rt: &HostRuntime) -> Line {
        let mut line = self.agreed();
        // A piece has a byte or more: the line is full before these are used up.
        for _ in 0..u64::MAX {
            if line.put_until(self.recorded.rest()) {
                break;
            }
            if self.recorded.take_in(rt.stdin()).is_err() || self.recorded.ended {
                break;
            }
        }
        line
    }

    // The line as it is due.
    fn due_line(&self) -> Line {
        let mut line = self.agreed();
        let rest = self.out.get(self.check.at..self.check.end);
        line.put_until(rest.unwrap_or_default());
        line
    }

    // A wrong line, as it is recorded and as it is due.
    fn show(&mut self, rt: &HostRuntime) -> io::Result<()> {
        let recorded = write_named(rt, b"recorded: ", &self.recorded_line(rt));
        let due = write_named(rt, b"due:      ", &self.due_line());
        recorded.and(due)
    }

    // Writes what was found. All of it is tried, where a write fails too: the first error is answered.
    fn say(&mut self, rt: &HostRuntime, finding: Finding) -> io::Result<()> {
        let mut line = Line::new();
        line.put_found(finding);
        let said = rt.write_all(line.as_slice());
        if matches!(finding, Finding::Wrong(_)) {
            return said.and(self.show(rt));
        }
        said
    }
}

// Writes a name and a line.
fn write_named(rt: &HostRuntime, name: &[u8], line: &Line) -> io::Result<()> {
    let named = rt.write_all(name);
    let shown = rt.write_all(line.as_slice());
    let ended = rt.write_all(b"\n");
    named.and(shown).and(ended)
}

// Checks what is recorded on standard input against the input in a file, which has that name: says what was found, or what could not be read.
fn check_log(rt: &HostRuntime, file: &File, name: &[u8]) {
    let mut log = Log::new();
    match log.seek(rt, file) {
        Ok(Some(finding)) => {
            if let Err(error) = log.say(rt, finding) {
                fail(rt, b"standard output", &error);
            }
        }
        Ok(None) => {}
        Err(Unreadable::Input(error)) => fail(rt, name, &error),
        Err(Unreadable::Recorded(error)) => fail(rt, b"standard input", &error),
    }
}

// Opens the file of that name. A name that is not UTF-8 is refused: no file is opened by one.
fn open(rt: &HostRuntime, name: &[u8]) -> io::Result<File> {
    let path = std::str::from_utf8(name).map_err(|_| io::ErrorKind::InvalidFilename)?;
    File::open(rt, path)
}

fn check_named(rt: &HostRuntime, name: &[u8]) {
    match open(rt, name) {
        // A program that is started without standard input, output or error gets its number for the file.
        Ok(file) if file.as_raw_fd() <= STANDARD_ERROR => {
            let _ = Print::write_all(&rt.stderr(), b"standard input, output or error is closed\n");
        }
        Ok(file) => check_log(rt, &file, name),
        Err(error) => fail(rt, name, &error),
    }
}

// Why the input's name cannot be had.
fn name_error(error: FillError) -> io::Error {
    io::Error::from_raw_os_error(match error {
        FillError::NotPresent => INVALID_ARGUMENT,
        FillError::TooLong => NAME_TOO_LONG,
    })
}

fn main(rt: HostRuntime) {
    let mut path = [0; NAME_BYTES];
    match rt.arg(1, &mut path) {
        Ok(n) => check_named(&rt, &path[..n]),
        Err(error) => fail(&rt, b"the input's name", &name_error(error)),
    }
}
