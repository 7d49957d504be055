ghost use Rattle.std.specs.Prelude.{◌≡◌, ℕ, ◌+◌, ◌-◌, ◌*◌, ◌≤◌, List, [], length};
ghost use Rattle.archive.specs.Contents.{Contents, contents};
ghost use Rattle.archive.specs.Packed.{rows_in, places, put};
ghost use Rattle.archive.specs.Held.{byte_contents};

use super::ByteArchive;
use crate::{Archive, admit};
use refusals::Refusal;
use rows::Row;

impl<'a> ByteArchive<'a> {
    /// An archive without rows in the memory, which stays as it is until a row comes.
    pub fn new(memory: &'a mut [u8]) -> Self
        ensures meaning { byte_contents result ≡ contents [] (places (length memory.old)) }
        ensures memory { result.memory.now ≡ memory.old }
        ensures lent { result.memory.ghost_name ≡ memory.entry.ghost_name }
    {
        ByteArchive { memory, used: 0 }
    }

    fn capacity(&self) -> usize
        ensures { result ≡ places (length self.now.memory.now) }
    {
        (self.memory.len() / 15).min(65_536)
    }
}

impl<'a> Archive for ByteArchive<'a> {
    ghost meaning = { byte_contents };

    ghost memory = { λ s. s.memory.now };

    ghost lent = { λ s. s.memory.ghost_name };

    ghost stamped = { put };

    fn append(&mut self, row: Row) -> Result<(), Refusal> {
        admit(row, self.free_places())?;
        let at = self.used * 15;
        let bytes = row.to_bytes();
        self.memory[at..at + 15].copy_from_slice(&bytes);
        self.used += 1;
        Ok(())
    }

    fn count(&self) -> usize {
        self.used
    }

    fn free_places(&self) -> usize {
        self.capacity() - self.used
    }

    fn row(&self, position: usize) -> Option<Row> {
        if position >= self.used {
            return None;
        }
        let at = position * 15;
        Row::read(&self.memory[at..at + 15])
            .ok()
            .map(|read| read.row)
    }
}
