ghost use Rattle.std.specs.Prelude.{◌≡◌, ℕ, ◌+◌, ◌-◌, ◌≤◌, List, [], length};
ghost use Rattle.archive.specs.Contents.{Contents, contents};
ghost use Rattle.archive.specs.Held.{table_contents};

use super::TableArchive;
use crate::{Archive, admit};
use refusals::Refusal;
use rows::{Kind, Row};

impl TableArchive {
    /// A table without rows.
    pub fn new() -> Self
        ensures { table_contents result ≡ contents [] 512 }
    {
        let blank = Row {
            kind: Kind::Energy,
            day: 0,
            hour: 0,
            stage: 0,
            supplier: 0,
            amount: 0,
        };
        TableArchive {
            records: [blank; 512],
            used: 0,
        }
    }
}

impl Archive for TableArchive {
    ghost meaning = { table_contents };

    ghost memory = { λ _. [] };

    ghost lent = { λ _. 0 };

    ghost stamped = { λ memory _ _. memory };

    fn append(&mut self, row: Row) -> Result<(), Refusal> {
        admit(row, self.free_places())?;
        self.records[self.used] = row;
        self.used += 1;
        Ok(())
    }

    fn count(&self) -> usize {
        self.used
    }

    fn free_places(&self) -> usize {
        512 - self.used
    }

    fn row(&self, position: usize) -> Option<Row> {
        self.records[..self.used].get(position).copied()
    }
}
