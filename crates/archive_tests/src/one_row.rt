//! An archive of another's: one row, and no place for more. What it holds is lawful by the invariant of its model, so
//! that it can say so where its rows are counted and could not show it of every row that a clause may name.
ghost use Rattle.std.specs.Prelude.{[], ◌∷◌};
ghost use Rattle.archive.specs.Contents.{contents};

use archive::Archive;
use refusals::{Cause, Layer, Refusal};
use rows::Row;
use std::marker::Model;

#[derive(Drop)]
pub(crate) struct OneRow {
    row: Row,
}

impl Model for OneRow {
    ghost use Rattle.rows.specs.declared.Row.{Row as RowT};
    ghost use Rattle.rows.specs.Lawful.{Lawful};

    ghost Value = { RowT };

    ghost view = { λ a. a.row };

    ghost invariant = { λ a. Lawful a.row };
}

impl OneRow {
    pub(crate) fn new(row: Row) -> Option<OneRow> {
        if row.is_lawful() {
            Some(OneRow { row })
        } else {
            None
        }
    }
}

impl Archive for OneRow {
    ghost meaning = { λ row. contents (row ∷ []) 0 };

    ghost memory = { λ _. [] };

    ghost lent = { λ _. 0 };

    ghost stamped = { λ memory _ _. memory };

    fn append(&mut self, row: Row) -> Result<(), Refusal> {
        let cause = if row.is_lawful() {
            Cause::ArchiveFull
        } else {
            Cause::UnlawfulRow
        };
        Err(Refusal::new(cause, Layer::Archive))
    }

    fn count(&self) -> usize {
        let _held = &self.row;
        1
    }

    fn free_places(&self) -> usize {
        0
    }

    fn row(&self, position: usize) -> Option<Row> {
        (position == 0).then_some(self.row)
    }
}
