// Says on standard error what failed.
use std::io;
use std::io::{Cursor, Write};

// Room for the text of any error of the system's.
const TEXT_BYTES: usize = 320;

// An error's text as the system words it: with no number after it.
fn words(text: &str) -> &str {
    match text.split_once(" (os error ") {
        Some((words, _)) => words,
        None => text,
    }
}

// Writes a line to standard error: what failed, as the caller names it, a colon and the error's text. Where standard error takes nothing, nobody is left to tell.
pub fn fail(rt: &HostRuntime, what: &[u8], error: &io::Error) {
    let mut text = Cursor::new([0; TEXT_BYTES]);
    let _ = write!(text, "{error}");
    let n = text.position() as usize;
    let bytes = text.into_inner();
    let whole = std::str::from_utf8(bytes.get(..n).unwrap_or_default()).unwrap_or_default();
    for part in [what, b": ", words(whole).as_bytes(), b"\n"] {
        let _ = Print::write_all(&rt.stderr(), part);
    }
}
