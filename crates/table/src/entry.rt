// An entry that a process holds, for an object or, among the descriptors, for a subtype: what it holds, and with which modes or access.

#[derive(Clone, Copy)]
pub(crate) struct Entry {
    pub(crate) held: u32,
    pub(crate) used: u32,
}

impl Entry {
    pub(crate) const EMPTY: Entry = Entry { held: 0, used: 0 };
}
