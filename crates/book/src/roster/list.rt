//! The roster as its user sees it: a list of entries that tells an account's supplier on a day.
ghost use Rattle.std.specs.Prelude.{◌≡◌, ◌≤◌, length};
ghost use Rattle.book.specs.Entries.{empty_roll, supplier_on, somebody, LastDecides};
ghost use Rattle.book.specs.Calls.{EntriesStay};

use super::{Entry, Roster};

impl<'a> Roster<'a> {
    /// A roster without entries. Whatever calls are made on a roster, its entries stay as they were added.
    pub fn new(memory: &'a mut [Entry]) -> Roster<'a>
        ensures empty { result ≡ empty_roll memory.old }
        ensures stays { EntriesStay }
    {
        Roster { memory, count: 0 }
    }

    /// How many entries there are, 65,536 at most.
    pub fn count(&self) -> usize
        ensures answer { result ≡ length self.now.entries }
        ensures few { result ≤ 65536 }
    {
        self.count
    }

    /// The supplier of an account on a day, if somebody serves it. The last entry that fits decides.
    pub fn supplier_on(&self, account: u32, day: u32) -> Option<u8>
        ensures answer { result ≡ somebody (supplier_on account day self.now.entries) }
        ensures few { length self.now.entries ≤ 65536 }
        ensures last { LastDecides }
    {
        self.last_entry(account, Some(day))
            .and_then(Entry::supplier)
    }
}
