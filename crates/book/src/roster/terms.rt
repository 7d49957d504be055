//! The terms of one entry: whom it concerns, whom it names, whether its figures are within their ranges.
ghost use Rattle.std.specs.Prelude.{◌≡◌, Some};
ghost use Rattle.book.specs.Ranges.{are_dated, are_terms};
ghost use Rattle.book.specs.Entries.{concerns, somebody, supplier_in};

use super::Entry;
use rows::{is_day, is_supplier};
use rules::is_account;

impl Entry {
    /// Whether it is an entry of the account; if a day is given, one whose from-day is not after it.
    pub(super) fn is_of(self, account: u32, by: Option<u32>) -> bool
        ensures { result ≡ concerns account by self }
    {
        self.account == account && by.is_none_or(|day| self.from_day <= day)
    }

    /// The supplier that it names, unless that is nobody.
    pub(super) fn supplier(self) -> Option<u8>
        ensures { result ≡ somebody (supplier_in (Some self)) }
    {
        is_supplier(self.supplier).then(|| self.supplier as u8)
    }

    /// Whether account and from-day lie within their ranges: what drop asks.
    pub(super) fn is_dated(self) -> bool
        ensures { result ≡ are_dated self.account self.from_day }
    {
        is_account(self.account) && is_day(self.from_day)
    }

    /// Whether the supplier does so too.
    pub(super) fn is_in_range(self) -> bool
        ensures { result ≡ are_terms self.account self.from_day self.supplier }
    {
        self.is_dated() && self.supplier().is_some()
    }
}
