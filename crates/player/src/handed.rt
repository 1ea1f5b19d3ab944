// All that is handed on goes by this module: nothing else of the player writes to standard output.
ghost use Rattle.std.specs.Prelude.{◌≡◌, ◌≤◌, length, take};

use crate::{Failed, Player};

// Hands on the whole text that it is lent, and answers that text.
fn put_out<'a>(rt: &HostRuntime, text: &'a [u8]) -> (&'a [u8], Result<(), Failed>)
    ensures { result.0.now ≡ text.now }
{
    (text, rt.write_all(text).map_err(Failed::Write))
}

impl Player {
    // Hands on the first n bytes of the output, and answers them; what is answered is counted.
    pub(crate) fn emit(&self, rt: &HostRuntime, n: usize) -> (&[u8], Result<(), Failed>)
        requires { n ≤ length self.now.out }
        ensures { result.0.now ≡ take n self.now.out }
    {
        put_out(rt, &self.out[..n])
    }
}
