//! The rows of an archive, first to last.
ghost use Rattle.std.specs.Prelude.{◌≡◌, ◌+◌, ◌≤◌, List, length, drop};
ghost use Rattle.std.specs.List.{AllByRecursion};
ghost use Rattle.std.specs.Iterator.{YieldsFirst, item_count};
ghost use Rattle.rows.specs.declared.Row.{Row as RowT};
ghost use Rattle.rows.specs.Lawful.{Lawful};

use crate::Archive;
use rows::Row;
use std::marker::Model;
use std::ops::Range;

/// The rows of an archive that are still to come, first to last.
#[derive(Drop)]
pub struct Rows<'a, A: Archive> {
    archive: &'a A,
    positions: Range<usize>,
}

impl<'a, A: Archive> Model for Rows<'a, A> {
    ghost Value = { List RowT };

    ghost view = { λ s. drop s.positions.start (A.meaning s.archive.now).rows };

    ghost invariant = { λ s. (s.positions.end ≡ length (A.meaning s.archive.now).rows) × (s.positions.start ≤ s.positions.end) };
}

impl<'a, A: Archive> Iterator for Rows<'a, A> {
    type Item = Row;

    ghost next_gives = { YieldsFirst (λ s. s) };

    ghost remaining = { item_count (λ s. s) };

    fn next(&mut self) -> Option<Row> {
        self.archive.row(self.positions.next()?)
    }
}

impl<'a, A: Archive> Rows<'a, A> {
    pub(crate) fn of(archive: &'a A) -> Self
        ensures rows { result ≡ (A.meaning archive.now).rows }
        ensures lawful { AllByRecursion Lawful (A.meaning archive.now).rows }
        ensures few { length (A.meaning archive.now).rows + (A.meaning archive.now).free ≤ 1000000 }
    {
        Rows {
            archive,
            positions: 0..archive.count(),
        }
    }
}
