ghost use Rattle.std.specs.Prelude.{◌≡◌, ℕ, ◌+◌, ◌-◌, ◌<◌, ◌≤◌, true, false, length, get_or, pos, ◌-ℤ◌, MatchOption, slice_index_or, not, count_by};
ghost use Rattle.archive.specs.declared.adjusting.Slot.{Slot as SlotT};
ghost use Rattle.archive.specs.Contents.{kept};
ghost use Rattle.archive.specs.Intake.{entered};
ghost use Rattle.archive.specs.Adjusting.{lawful_slot, is_zero, in_range, row_in, row_for, rows_for, all_in_range, lacks, lacking, with_rows, adjusting, adjusted, AdjustingLaw};

use super::Slot;
use crate::Archive;
use crate::sums::hour_sums;
use refusals::{Cause, Layer, Refusal};
use rows::{Row, is_day};

impl Slot {
    fn is_lawful(self) -> bool
        ensures { result ≡ lawful_slot self }
    {
        is_day(u32::from(self.day)) && self.kind.is_timely(self.hour, self.stage)
    }

    fn row(self, supplier: u8, amount: i64) -> Row
        ensures { result ≡ row_in self supplier amount }
    {
        Row {
            kind: self.kind,
            day: self.day,
            hour: self.hour,
            stage: self.stage,
            supplier,
            amount,
        }
    }
}

// What is wanted less the sum, if a row can hold it or, being 0, needs none: so this range is not that of a row's
// amount, which is never 0.
fn due(wanted: u64, sum: i64) -> Option<i64>
    ensures { MatchOption result (in_range (pos wanted -ℤ sum) ≡ false) (λ z. (z ≡ pos wanted -ℤ sum) × (in_range (pos wanted -ℤ sum) ≡ true)) }
{
    let lacking = i64::try_from(i128::from(wanted) - i128::from(sum)).ok()?;
    (-3_000_000_000..=3_000_000_000)
        .contains(&lacking)
        .then_some(lacking)
}

// What each supplier lacks, if rows can hold all of it.
fn dues(wanted: &[u64; 32], sums: &[i64; 32]) -> Option<[i64; 32]>
    ensures { MatchOption result (all_in_range (lacks wanted.now sums.now) 32 ≡ false) (λ zs. (all_in_range (lacks wanted.now sums.now) 32 ≡ true) × ((s : ℕ) → 1 ≤ s → s ≤ 32 → slice_index_or zs (s - 1) (pos 0) ≡ lacks wanted.now sums.now s)) }
{
    let mut all = [0; 32];
    for (i, (wanted, sum)) in wanted.iter().zip(sums).enumerate() {
        // Of what a loop over `all.iter_mut().zip(..)` writes, a proof knows nothing.
        all[i] = due(*wanted, *sum)?;
    }
    Some(all)
}

// How many of these amounts need a row.
fn rows_needed(dues: &[i64; 32]) -> usize
    ensures { result ≡ count_by (λ z. not (is_zero z)) dues.now }
{
    dues.iter().filter(|due| **due != 0).count()
}

// Appends the row of one supplier, unless the amount is 0.
fn append_due<A: Archive>(archive: &mut A, slot: Slot, supplier: u8, amount: i64)
    requires slot { lawful_slot slot ≡ true }
    requires supplier { (1 ≤ supplier) × (supplier ≤ 32) }
    requires amount { in_range amount ≡ true }
    requires room { length (row_for slot supplier amount) ≤ (A.meaning archive.old).free }
    ensures after { A.meaning archive.new ≡ with_rows (A.meaning archive.old) (row_for slot supplier amount) }
    ensures memory { A.memory archive.new ≡ entered A.Archive.stamped (A.memory archive.old) (length (A.meaning archive.old).rows) (row_for slot supplier amount) }
    ensures lent { A.lent archive.new ≡ A.lent archive.old }
{
    if amount == 0 {
        return;
    }
    let _ = archive.append(slot.row(supplier, amount));
}

// Appends the rows of all suppliers, in rising number.
fn append_dues<A: Archive>(archive: &mut A, slot: Slot, dues: &[i64; 32])
    requires slot { lawful_slot slot ≡ true }
    requires amounts { all_in_range (λ s. get_or dues.now (s - 1) (pos 0)) 32 ≡ true }
    requires room { length (rows_for slot (λ s. get_or dues.now (s - 1) (pos 0)) 32) ≤ (A.meaning archive.old).free }
    ensures after { A.meaning archive.new ≡ with_rows (A.meaning archive.old) (rows_for slot (λ s. get_or dues.now (s - 1) (pos 0)) 32) }
    ensures memory { A.memory archive.new ≡ entered A.Archive.stamped (A.memory archive.old) (length (A.meaning archive.old).rows) (rows_for slot (λ s. get_or dues.now (s - 1) (pos 0)) 32) }
    ensures lent { A.lent archive.new ≡ A.lent archive.old }
{
    for (i, due) in dues.iter().enumerate() {
        append_due(archive, slot, i as u8 + 1, *due);
    }
}

/// For each supplier in rising number appends what is wanted for it less the sum of its rows of the slot's kind, day and
/// hour, unless that is 0, and answers how many rows these are: all or none. 32 for an unlawful slot, then 26 for an
/// amount that no row holds, then 27 for more rows than free places.
pub fn adjust<A: Archive>(archive: &mut A, slot: Slot, wanted: &[u64; 32]) -> Result<usize, Refusal>
    ensures answer { result ≡ adjusting (A.meaning archive.old) slot wanted.now }
    ensures after { A.meaning archive.new ≡ adjusted (A.meaning archive.old) slot wanted.now }
    ensures memory { A.memory archive.new ≡ kept result (entered A.Archive.stamped (A.memory archive.old) (length (A.meaning archive.old).rows) (lacking slot wanted.now (A.meaning archive.old).rows)) (A.memory archive.old) }
    ensures lent { A.lent archive.new ≡ A.lent archive.old }
    ensures law { AdjustingLaw }
{
    if !slot.is_lawful() {
        return Err(Refusal::new(Cause::UnlawfulRow, Layer::Archive));
    }
    let sums = hour_sums(
        archive,
        slot.kind,
        u32::from(slot.day),
        u32::from(slot.hour),
    );
    let Some(all) = dues(wanted, &sums.suppliers) else {
        return Err(Refusal::new(Cause::AmountTooLarge, Layer::Archive));
    };
    let rows = rows_needed(&all);
    if rows > archive.free_places() {
        return Err(Refusal::new(Cause::ArchiveFull, Layer::Archive));
    }
    append_dues(archive, slot, &all);
    Ok(rows)
}
