//! Enrol, switch and drop.
ghost use Rattle.std.specs.Prelude.{◌≡◌, ◌≤◌, true, length, Ok};
ghost use Rattle.book.specs.Entries.{added};
ghost use Rattle.book.specs.Calls.{has_place, admitting, timing, if_ok, enrolling, switching, dropping, to_enrol, to_switch, to_drop, after_call};

use super::{Entry, Roster};
use crate::opening::Book;
use crate::ranges::check;
use refusals::{Cause, Refusal};

impl<'a> Roster<'a> {
    /// Adds an entry with a supplier to an account that is not served.
    pub fn enrol(&mut self, book: &Book, entry: Entry) -> Result<(), Refusal>
        ensures answer { result ≡ enrolling book.now.last_opened self.old entry.account entry.from_day entry.supplier }
        ensures after { self.new ≡ after_call self.old (to_enrol book.now.last_opened entry.account entry.from_day entry.supplier) }
        ensures few { length self.new.entries ≤ 65536 }
    {
        self.admit(entry.is_in_range())?;
        let last = self.last_entry(entry.account, None);
        check(
            last.and_then(Entry::supplier).is_none(),
            Cause::AlreadyServed,
        )?;
        self.add_after(book, last, entry)
    }

    /// Adds an entry with another supplier to a served account.
    pub fn switch(&mut self, book: &Book, entry: Entry) -> Result<(), Refusal>
        ensures answer { result ≡ switching book.now.last_opened self.old entry.account entry.from_day entry.supplier }
        ensures after { self.new ≡ after_call self.old (to_switch book.now.last_opened entry.account entry.from_day entry.supplier) }
        ensures few { length self.new.entries ≤ 65536 }
    {
        self.admit(entry.is_in_range())?;
        let last = self.last_entry(entry.account, None);
        let serving = last.and_then(Entry::supplier);
        check(serving.is_some(), Cause::NotServed)?;
        check(serving != entry.supplier(), Cause::SameSupplier)?;
        self.add_after(book, last, entry)
    }

    /// Ends the service of a served account: adds an entry with supplier 0.
    pub fn drop(&mut self, book: &Book, account: u32, from_day: u32) -> Result<(), Refusal>
        ensures answer { result ≡ dropping book.now.last_opened self.old account from_day }
        ensures after { self.new ≡ after_call self.old (to_drop book.now.last_opened account from_day) }
        ensures few { length self.new.entries ≤ 65536 }
    {
        let entry = Entry {
            account,
            from_day,
            supplier: 0,
        };
        self.admit(entry.is_dated())?;
        let last = self.last_entry(account, None);
        check(last.and_then(Entry::supplier).is_some(), Cause::NotServed)?;
        self.add_after(book, last, entry)
    }

    /// The checks that come first: the figures are within their ranges, and a place is left.
    fn admit(&self, in_range: bool) -> Result<(), Refusal>
        ensures answer { result ≡ admitting self.now in_range (Ok tt) }
        ensures few { length self.now.entries ≤ 65536 }
    {
        let has_place = self.has_place();
        check(in_range, Cause::OutOfRange)?;
        check(has_place, Cause::RosterFull)
    }

    /// Puts an entry last if its from-day is after that of the account's last entry and after the last opened day.
    fn add_after(&mut self, book: &Book, last: Option<Entry>, entry: Entry) -> Result<(), Refusal>
        requires { has_place self.old ≡ true }
        ensures answer { result ≡ timing book.now.last_opened last entry.from_day }
        ensures after { self.new ≡ if_ok result (added self.old entry) self.old }
        ensures few { length self.new.entries ≤ 65536 }
    {
        let is_after = last.is_none_or(|before| before.from_day < entry.from_day);
        check(is_after, Cause::NotAfterLastEntry)?;
        check(
            book.last_opened() < entry.from_day,
            Cause::NotAfterLastOpened,
        )?;
        self.add(entry);
        Ok(())
    }
}
