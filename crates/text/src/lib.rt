// The listing's text, written into a lent buffer: error names, numbers in decimal, bytes in hex, and a line of them.
#![tactic(auto)]

ghost use Rattle.std.specs.Prelude.{◌≡◌, cond, [], ◌++◌, ◌<◌};
ghost use Rattle.rules.specs.Errors.{error_name};
ghost use Rattle.rules.specs.Step.{answer};
ghost use Rattle.rules.specs.Replay.{decimal, hex_digit, hex, space, shows_buffer, line};
ghost use Rattle.output.specs.Wrote.{Wrote};

use rules::{READ_BLOCK_CODE, RECEIVE_CODE, STATUS_CODE, XOK};

// How many there are: none and the 36 refusals.
const ERRORS: usize = 37;

// The names of the errors, by number.
const NAMES: [&[u8]; ERRORS] = [
    b"XOK",
    b"XbTab",
    b"XbPrSd",
    b"XbdKcl",
    b"XbParam",
    b"XbSz",
    b"XbSgSz",
    b"XbadModes",
    b"XnSgDes",
    b"XbSgDes",
    b"XbadOd",
    b"XbSgSd",
    b"XnoObj",
    b"XnoAcc",
    b"XnoOwner",
    b"XnoPriv",
    b"XdapViol",
    b"XsgNoAcc",
    b"XdupSg",
    b"Xbusy",
    b"XnotReadable",
    b"XnotWritable",
    b"XbadBlockNo",
    b"XendOfFile",
    b"XbadLink",
    b"XodSpace",
    b"XnoSpace",
    b"XnoProc",
    b"XpostEh",
    b"XbNoMes",
    b"XoutSgAldUmp",
    b"XinSgAldMap",
    b"XvrtMmCfl",
    b"XshSg",
    b"XnoSPriv",
    b"XbadStCap",
    b"XbadSubtypeMatch",
];

// The name of an error; nothing for a number that is no error's.
pub fn put_error_name(out: &mut [u8], at: usize, n: u32) -> usize
    ensures { Wrote out.old at (error_name n) result out.new }
{
    match NAMES.get(n as usize) {
        Some(name) => output::put_bytes(out, at, name),
        None => at,
    }
}

// A number in decimal: the digits of its tenth, and then the last.
pub fn put_decimal(out: &mut [u8], at: usize, v: u64) -> usize
    ensures { Wrote out.old at (decimal v) result out.new }
{
    if v < 10 {
        return output::put_byte(out, at, b'0' + v as u8);
    }
    let next = put_decimal(out, at, v / 10);
    output::put_byte(out, next, b'0' + (v % 10) as u8)
}

fn hex_digit(d: u8) -> u8
    requires { d < 16 }
    ensures { result ≡ hex_digit d }
{
    if d < 10 { b'0' + d } else { b'a' + (d - 10) }
}

// Bytes in lower-case hex, two digits each.
pub fn put_hex(out: &mut [u8], at: usize, s: &[u8]) -> usize
    ensures { Wrote out.old at (hex s.now) result out.new }
{
    let mut next = at;
    for b in s {
        next = output::put_byte(out, next, hex_digit(b / 16));
        next = output::put_byte(out, next, hex_digit(b % 16));
    }
    next
}

// A line ends in the buffer after a successful 13, 16 or 17. Code and error are the numbers of `put_line`, whose signature may not change.
#[tactic(auto, unfolding(rules::specs::Replay::shows_buffer))]
fn shows_buffer(code: u32, error: u32) -> bool
    ensures { result ≡ shows_buffer code error }
{
    error == XOK && matches!(code, READ_BLOCK_CODE | RECEIVE_CODE | STATUS_CODE)
}

fn put_front(out: &mut [u8], at: usize, n: u64, error: u32) -> usize
    ensures { Wrote out.old at (decimal n ++ (space ++ (error_name error ++ space))) result out.new }
{
    let number = put_decimal(out, at, n);
    let part = output::put_byte(out, number, b' ');
    let name = put_error_name(out, part, error);
    output::put_byte(out, name, b' ')
}

fn put_results(out: &mut [u8], at: usize, first: u32, second: u32) -> usize
    ensures { Wrote out.old at (decimal first ++ (space ++ decimal second)) result out.new }
{
    let next = put_decimal(out, at, first as u64);
    let part = output::put_byte(out, next, b' ');
    put_decimal(out, part, second as u64)
}

fn put_buffer(out: &mut [u8], at: usize, code: u32, error: u32, buffer: &[u8]) -> usize
    ensures { Wrote out.old at (cond (shows_buffer code error) (space ++ hex buffer.now) []) result out.new }
{
    if shows_buffer(code, error) {
        let part = output::put_byte(out, at, b' ');
        return put_hex(out, part, buffer);
    }
    at
}

// The line of call number n, with its code, its answer and the buffer that it leaves. (The answer stays three numbers: the signature of put_line may
// not change.)
pub fn put_line(
    out: &mut [u8],
    at: usize,
    n: u64,
    code: u32,
    error: u32,
    first: u32,
    second: u32,
    buffer: &[u8],
) -> usize
    ensures { Wrote out.old at (line n code (answer error first second) buffer.now) result out.new }
{
    let front = put_front(out, at, n, error);
    let results = put_results(out, front, first, second);
    let shown = put_buffer(out, results, code, error, buffer);
    output::put_byte(out, shown, b'\n')
}
