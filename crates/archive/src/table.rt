ghost use Rattle.std.specs.Prelude.{◌≡◌, ◌≤◌, true, length, take};
ghost use Rattle.archive.specs.Packed.{all_lawful};

use rows::Row;

/// Up to 512 row records, in memory of its own.
// The count stands beside the records: an `ArrayVec` asks `Default` of its items, and a row by default would be an
// unlawful one.
#[derive(Drop)]
pub struct TableArchive {
    records: [Row; 512],
    used: usize,
    ghost long: { length records ≡ 512 },
    ghost few: { used ≤ 512 },
    ghost lawful: { all_lawful (take used records) ≡ true },
}

mod meaning;
