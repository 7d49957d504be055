//! The archive: rows that are added and never rewritten, in any memory, and what is read off them.
#![tactic(auto)]

ghost use Rattle.std.specs.Prelude.{◌≡◌, ℕ, ◌+◌, ◌≤◌, List, [], length};
ghost use Rattle.std.specs.List.{slice_get, AllByRecursion};
ghost use Rattle.rows.specs.declared.Row.{Row as RowT};
ghost use Rattle.rows.specs.Lawful.{Lawful};
ghost use Rattle.archive.specs.Contents.{Contents, contents, appending, appended, kept};

use iter::Rows;
use refusals::{Cause, Layer, Refusal};
use rows::Row;

pub mod adjusting;
pub mod bytes;
pub mod intake;
pub mod iter;
pub mod listing;
pub mod sums;
pub mod table;

/// An archive by its meaning: the rows in the order in which they came, and how many more it has place for.
///
/// `memory` is the user's memory that the archive lies in (nothing, where it has its own), `lent` tells by which loan it
/// has it, and `stamped` is that memory once a row is put at a position: so that a call can say all that it writes.
// `meaning`, `memory` and `lent` are no record: each caller needs one alone, and a table has nothing in the last two.
pub trait Archive {
    ghost meaning: { Self → Contents };

    ghost memory: { Self → List ℕ };

    ghost lent: { Self → ℕ };

    ghost stamped: { List ℕ → ℕ → RowT → List ℕ };

    /// Puts a row last: 32 for an unlawful row, else 27 where no place is free.
    fn append(&mut self, row: Row) -> Result<(), Refusal>
        ensures answer { result ≡ appending (meaning self.old) row }
        ensures after { meaning self.new ≡ appended (meaning self.old) row }
        ensures memory { memory self.new ≡ kept result (stamped (memory self.old) (length (meaning self.old).rows) row) (memory self.old) }
        ensures lent { lent self.new ≡ lent self.old };

    /// How many rows there are. Each is lawful, and with the free places they are at most 1,000,000.
    fn count(&self) -> usize
        ensures answer { result ≡ length (meaning self.now).rows }
        ensures lawful { AllByRecursion Lawful (meaning self.now).rows }
        ensures few { length (meaning self.now).rows + (meaning self.now).free ≤ 1000000 };

    /// How many more rows there is place for.
    fn free_places(&self) -> usize
        ensures { result ≡ (meaning self.now).free };

    /// The row at a position from 0; none from the count on.
    fn row(&self, position: usize) -> Option<Row>
        ensures { result ≡ slice_get (meaning self.now).rows position };

    /// The rows, first to last. What `count` says of them all holds here too.
    final fn rows(&self) -> Rows<'_, Self>
    where
        Self: Sized,
        ensures rows { result ≡ (meaning self.now).rows }
        ensures lawful { AllByRecursion Lawful (meaning self.now).rows }
        ensures few { length (meaning self.now).rows + (meaning self.now).free ≤ 1000000 }
    {
        Rows::of(self)
    }
}

// What every archive refuses, where so many places are free.
fn admit(row: Row, free: usize) -> Result<(), Refusal>
    ensures { result ≡ appending (contents [] free) row }
{
    if !row.is_lawful() {
        Err(Refusal::new(Cause::UnlawfulRow, Layer::Archive))
    } else if free == 0 {
        Err(Refusal::new(Cause::ArchiveFull, Layer::Archive))
    } else {
        Ok(())
    }
}
