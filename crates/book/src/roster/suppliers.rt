//! The suppliers of a whole sheet in one pass over the entries.
ghost use Rattle.std.specs.Prelude.{◌≡◌, ◌≤◌, map, length};
ghost use Rattle.book.specs.Rising.{Rising};
ghost use Rattle.book.specs.Sheets.{suppliers_on, lines_told, table_on};

use super::Roster;
use crate::sheet::{Accounted, place_of, rising_front};

// The table stands beside the lines, with 0 for nobody: its user lends it, one byte a line.
impl<'a> Roster<'a> {
    /// Writes the supplier of each line's account on a day into the table, 0 for nobody: for the lines before the first
    /// whose account is not above that of the line before it, as far as the table reaches. Answers how many these are.
    pub fn suppliers<L: Accounted>(&self, lines: &[L], day: u32, table: &mut [u8]) -> usize
        ensures answer { result ≡ lines_told (map L.account_of lines.now) table.old }
        ensures after { table.new ≡ table_on day self.now.entries (map L.account_of lines.now) table.old }
        ensures few { length self.now.entries ≤ 65536 }
    {
        let n = rising_front(lines).min(table.len());
        self.enter_suppliers(&lines[..n], day, &mut table[..n]);
        n
    }

    /// The same for lines that rise, in a table with a place for each.
    fn enter_suppliers<L: Accounted>(&self, lines: &[L], day: u32, table: &mut [u8])
        requires long { length table.old ≡ length lines.now }
        requires rises { Rising (map L.account_of lines.now) }
        ensures after { table.new ≡ suppliers_on day self.now.entries (map L.account_of lines.now) }
        ensures few { length self.now.entries ≤ 65536 }
    {
        table.fill(0);
        for entry in &self.memory[..self.count] {
            if entry.from_day <= day
                && let Some(place) = place_of(lines, entry.account)
            {
                table[place] = entry.supplier().unwrap_or(0);
            }
        }
    }
}

#[cfg(test)]
mod tests {
    use crate::opening::Book;
    use crate::roster::{Entry, Roster};
    use crate::sheet::Accounted;

    #[derive(Drop)]
    struct Line(u32);

    impl Accounted for Line {
        ghost account_of = { λ line. line.0 };

        fn account(&self) -> u32 {
            self.0
        }
    }

    fn entry(account: u32, from_day: u32, supplier: u32) -> Entry {
        Entry {
            account,
            from_day,
            supplier,
        }
    }

    #[test]
    fn suppliers_of_a_sheet(rt: HostRuntime) {
        let mut memory = [Entry::default(); 5];
        let mut roster = Roster::new(&mut memory);
        let book = Book::new();
        assert_eq!(rt; roster.enrol(&book, entry(4, 10, 7)), Ok(()));
        assert_eq!(rt; roster.enrol(&book, entry(2, 5, 3)), Ok(()));
        assert_eq!(rt; roster.switch(&book, entry(2, 8, 9)), Ok(()));
        assert_eq!(rt; roster.drop(&book, 4, 11), Ok(()));
        assert_eq!(rt; roster.switch(&book, entry(2, 20, 32)), Ok(()));
        assert!(rt; roster.enrol(&book, entry(3, 1, 1)).is_err());
        let lines = [Line(2), Line(3), Line(4), Line(4), Line(5)];
        let mut table = [255; 5];
        assert_eq!(rt; roster.suppliers(&lines, 10, &mut table), 3);
        assert_eq!(rt; table, [9, 0, 7, 255, 255]);
        assert_eq!(rt; roster.suppliers(&lines, 20, &mut table), 3);
        assert_eq!(rt; table, [32, 0, 0, 255, 255]);
        assert_eq!(rt; roster.supplier_on(2, 7), Some(3));
        assert_eq!(rt; roster.supplier_on(2, 4), None);
    }
}
