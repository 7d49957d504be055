ghost use Rattle.std.specs.Prelude.{◌≡◌, ◌-◌, ◌≤◌, pos, ◌+ℤ◌, slice_index_or, slice_set, unsigned_abs};
ghost use Rattle.archive.specs.Sums.{in_hour, sums_of, hour_sum, Small, ZoneLaw};

use crate::Archive;
use rows::{Kind, Row};

/// The sums of the rows of one kind, day and hour: of each supplier, supplier 1 first, and of all.
#[derive(Clone, Copy, PartialEq, Eq, Debug)]
pub struct HourSums {
    pub suppliers: [i64; 32],
    pub zone: i64,
}

fn is_in_hour(row: Row, kind: Kind, day: u32, hour: u32) -> bool
    ensures { result ≡ in_hour kind day hour row }
{
    row.kind == kind && u32::from(row.day) == day && u32::from(row.hour) == hour
}

impl HourSums {
    // Adds a row of the hour.
    fn add(&mut self, row: Row)
        requires supplier { (1 ≤ row.supplier) × (row.supplier ≤ 32) }
        requires fits { unsigned_abs (slice_index_or self.old.suppliers (row.supplier - 1) (pos 0) +ℤ row.amount) ≤ 3000000000000000 }
        requires all { unsigned_abs (self.old.zone +ℤ row.amount) ≤ 3000000000000000 }
        ensures suppliers { self.new.suppliers ≡ slice_set self.old.suppliers (row.supplier - 1) (slice_index_or self.old.suppliers (row.supplier - 1) (pos 0) +ℤ row.amount) }
        ensures zone { self.new.zone ≡ self.old.zone +ℤ row.amount }
    {
        self.suppliers[usize::from(row.supplier - 1)] += row.amount;
        self.zone += row.amount;
    }
}

/// All sums of an hour in one pass. The suppliers' sums add up to the zone's, and none overflows, since an archive
/// has at most 1,000,000 rows of at most 3,000,000,000 units.
pub fn hour_sums<A: Archive>(archive: &A, kind: Kind, day: u32, hour: u32) -> HourSums
    ensures suppliers { result.suppliers ≡ sums_of kind day hour (A.meaning archive.now).rows }
    ensures zone { result.zone ≡ hour_sum kind day hour (A.meaning archive.now).rows }
    ensures small { Small result.suppliers result.zone }
    ensures adds { ZoneLaw }
{
    let mut sums = HourSums {
        suppliers: [0; 32],
        zone: 0,
    };
    for row in archive.rows() {
        if is_in_hour(row, kind, day, hour) {
            sums.add(row);
        }
    }
    sums
}
