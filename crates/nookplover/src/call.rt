//! The calls of a journal, as they were read.
use book::Entry;

/// The archive that a journal asks for.
// No Option of a size: each is an archive, and neither is a missing one.
#[derive(Clone, Copy)]
pub(crate) enum Holding {
    /// A byte archive in so many bytes of memory.
    Bytes(u32),
    /// The table archive.
    Table,
}

/// A call. Its figures are as the journal has them: the call itself refuses one that is out of its range.
#[derive(Drop)]
pub(crate) enum Call {
    Enrol(Entry),
    Switch(Entry),
    Drop {
        account: u32,
        from_day: u32,
    },
    Open {
        day: u32,
        hours: u32,
    },
    Turn {
        day: u32,
    },
    Close {
        day: u32,
    },
    TakeIn(Vec<u8>),
    List {
        day: u32,
        hour: u32,
        /// How many bytes the listing may take, where the journal says so.
        bytes: Option<u32>,
    },
    Dump,
}
