// The address map of a process.
ghost use Rattle.std.specs.Prelude.{◌≡◌, ◌+◌, ◌<◌, ◌≤◌, length};
ghost use Rattle.rules.specs.Claim.{test, each};
ghost use Rattle.rules.specs.Layout.{process, record_words, pages};
ghost use Rattle.rules.specs.WellFormed.{page_ok};
ghost use Rattle.table.specs.Entries.{record_at};

use rules::{DESIGNATORS, ENTRIES, PAGES, PAGES_AT};
use words::wide;

// Page g of the process whose record begins at `at`: it is 0, or names a designator that is filled.
fn page_ok(t: &[u32], at: usize, g: usize) -> bool
    requires { (at + record_words process ≤ length t.now) × (g < pages) }
    ensures { result ≡ test (page_ok (record_at t.now at) 0 g) }
{
    let x = wide(t[at + (PAGES_AT + g)]);
    if x == 0 {
        return true;
    }
    if ENTRIES < x {
        return false;
    }
    t[at + (DESIGNATORS + 2 * (x - 1))] != 0
}

pub(crate) fn pages_ok(t: &[u32], at: usize) -> bool
    requires { at + record_words process ≤ length t.now }
    ensures { result ≡ test (each pages (page_ok (record_at t.now at) 0)) }
{
    let mut ok = true;
    for g in 0..PAGES {
        ok = ok & page_ok(t, at, g);
    }
    ok
}
