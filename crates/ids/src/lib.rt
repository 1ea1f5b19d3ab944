// Identifiers: three kinds that cannot be mixed. Their fields are private, so each is made by its own class check alone.
#![tactic(auto)]

ghost use Rattle.std.specs.Prelude.{◌≡◌, ℕ, refl};
ghost use Rattle.rules.specs.Layout.{Kind, process, segment, file};
ghost use Rattle.rules.specs.Seid.{index_of, serial_of};
ghost use Rattle.ids.specs.Seid.{identifier, process_of, segment_of, file_of, seid_of};

use layout::{BYTE, CLASS_UNIT, INDEX_UNIT};
use rules::{FILE_CLASS, MAX_SERIAL, PROCESS_CLASS, SEGMENT_CLASS};

// Document 01 names this form: three tuple structs over u32, each made by its own class check.
#[derive(Clone, Copy)]
pub struct ProcessId(u32);

#[derive(Clone, Copy)]
pub struct SegmentId(u32);

#[derive(Clone, Copy)]
pub struct FileId(u32);

// What the three have in common: the class check, the word, and the parts of the word. The check has no body here: what makes an identifier of a word would then be a
// method of the trait, and open to all.
pub trait Identifier: Copy {
    ghost kind: { Kind };

    // the identifier that a word of the form is, and its word
    ghost of: { ℕ → Self };

    ghost word_of: { Self → ℕ };

    fn check(w: u32, size: u32) -> Option<Self>
        ensures { result ≡ identifier kind of size w };

    fn word(self) -> u32
        ensures { result ≡ word_of self };

    fn index(self) -> u32
        ensures { result ≡ index_of (word_of self) }
    {
        layout::index_of(self.word())
    }

    fn serial(self) -> u32
        ensures { result ≡ serial_of (word_of self) }
    {
        layout::serial_of(self.word())
    }

    ghost word_back: { (w : ℕ) → word_of (of w) ≡ w };
}

impl Identifier for ProcessId {
    ghost kind = { process };

    ghost of = { λ w. record { 0 = w } };

    ghost word_of = { λ p. p.0 };

    ghost word_back = { λ w. refl };

    fn check(w: u32, size: u32) -> Option<Self>
        ensures { result ≡ process_of size w }
    {
        layout::is_seid(PROCESS_CLASS, size, w).then_some(ProcessId(w))
    }

    fn word(self) -> u32 {
        self.0
    }
}

impl Identifier for SegmentId {
    ghost kind = { segment };

    ghost of = { λ w. record { 0 = w } };

    ghost word_of = { λ g. g.0 };

    ghost word_back = { λ w. refl };

    fn check(w: u32, size: u32) -> Option<Self>
        ensures { result ≡ segment_of size w }
    {
        layout::is_seid(SEGMENT_CLASS, size, w).then_some(SegmentId(w))
    }

    fn word(self) -> u32 {
        self.0
    }
}

impl Identifier for FileId {
    ghost kind = { file };

    ghost of = { λ w. record { 0 = w } };

    ghost word_of = { λ f. f.0 };

    ghost word_back = { λ w. refl };

    fn check(w: u32, size: u32) -> Option<Self>
        ensures { result ≡ file_of size w }
    {
        layout::is_seid(FILE_CLASS, size, w).then_some(FileId(w))
    }

    fn word(self) -> u32 {
        self.0
    }
}

// The word of a seid, and 0, which names nothing, where a part does not fit its place.
pub fn seid(class: u32, index: u32, serial: u32) -> u32
    ensures { result ≡ seid_of class index serial }
{
    if (class < BYTE) & ((index < BYTE) & (serial <= MAX_SERIAL)) {
        class * CLASS_UNIT + index * INDEX_UNIT + serial
    } else {
        0
    }
}
