// Subtypes, which stand in the configuration: whether a word names one.
ghost use Rattle.std.specs.Prelude.{◌≡◌, ◌&&◌, ◌==◌};
ghost use Rattle.rules.specs.Seid.{subtype_class, subtype_serial, serial_of, is_seid};

use layout::Header;
use rules::{SUBTYPE_CLASS, SUBTYPE_SERIAL};

// Whether s is the identifier of a subtype that there is. None is ever freed: all have the first serial.
pub(crate) fn named(n: Header, s: u32) -> bool
    ensures { result ≡ is_seid subtype_class n.subtypes s && (serial_of s == subtype_serial) }
{
    layout::is_seid(SUBTYPE_CLASS, n.subtypes, s) & (layout::serial_of(s) == SUBTYPE_SERIAL)
}
