// Owner bits, and the access of a segment.
#![tactic(auto)]

ghost use Rattle.std.specs.Prelude.{◌≡◌};
ghost use Rattle.rules.specs.Rights.{rights, may_read, may_write, lacks, asks_read, asks_write, valid_access, access};

// A segment's access: these two bits.
const READ: u32 = 256;

const WRITE: u32 = 128;

const READ_WRITE: u32 = READ + WRITE;

// The three bits that speak of a process of owner u and group g: read 4, write 2, execute 1. The first set that fits is the only one that speaks.
pub fn rights(u: u32, g: u32, owner: u32, group: u32, bits: u32) -> u32
    ensures { result ≡ rights u g owner group bits }
{
    if u == owner {
        bits / 64 % 8
    } else if g == group {
        bits / 8 % 8
    } else {
        bits % 8
    }
}

pub fn may_read(x: u32) -> bool
    ensures { result ≡ may_read x }
{
    x / 4 % 2 == 1
}

pub fn may_write(x: u32) -> bool
    ensures { result ≡ may_write x }
{
    x / 2 % 2 == 1
}

// Whether the rights x lack what is asked for.
pub fn lacks(x: u32, read: bool, write: bool) -> bool
    ensures { result ≡ lacks x read write }
{
    (read & !may_read(x)) | (write & !may_write(x))
}

pub fn asks_read(a: u32) -> bool
    ensures { result ≡ asks_read a }
{
    a / READ % 2 == 1
}

pub fn asks_write(a: u32) -> bool
    ensures { result ≡ asks_write a }
{
    a / WRITE % 2 == 1
}

pub fn valid_access(a: u32) -> bool
    ensures { result ≡ valid_access a }
{
    matches!(a, 0 | WRITE | READ | READ_WRITE)
}

// The access of these two rights.
pub fn access(read: bool, write: bool) -> u32
    ensures { result ≡ access read write }
{
    READ * u32::from(read) + WRITE * u32::from(write)
}
