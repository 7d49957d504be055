//! The places of the list: whether one is left, an entry in the next one, an account's last entry.
ghost use Rattle.std.specs.Prelude.{◌≡◌, ◌≤◌, true, length};
ghost use Rattle.book.specs.Entries.{added, last_entry};
ghost use Rattle.book.specs.Calls.{has_place};

use super::{Entry, Roster};

/// The most entries that a roster holds.
const MOST: usize = 65_536;

impl<'a> Roster<'a> {
    /// Whether there is a place for one more.
    pub(super) fn has_place(&self) -> bool
        ensures answer { result ≡ has_place self.now }
        ensures few { length self.now.entries ≤ 65536 }
    {
        self.count < MOST && self.count < self.memory.len()
    }

    /// Puts an entry last.
    pub(super) fn add(&mut self, entry: Entry)
        requires { has_place self.old ≡ true }
        ensures after { self.new ≡ added self.old entry }
        ensures few { length self.new.entries ≤ 65536 }
    {
        self.memory[self.count] = entry;
        self.count += 1;
    }

    /// The account's last entry; if a day is given, the last of those whose from-day is not after it.
    pub(super) fn last_entry(&self, account: u32, by: Option<u32>) -> Option<Entry>
        ensures answer { result ≡ last_entry account by self.now.entries }
        ensures few { length self.now.entries ≤ 65536 }
    {
        let last = self.memory[..self.count]
            .iter()
            .rfind(|entry| entry.is_of(account, by))?;
        Some(*last)
    }
}
