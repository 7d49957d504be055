ghost use Rattle.std.specs.Prelude.{◌≡◌, ℕ, ◌+◌, ◌-◌, ◌/◌, ◌≤◌, ◌++◌, length, Ok, Err};
ghost use Rattle.archive.specs.Contents.{Contents, contents, kept};
ghost use Rattle.archive.specs.Packed.{rows_in};
ghost use Rattle.archive.specs.Intake.{faulty, all_read, taking_in, taken_in, entered, TakenAgain};

use crate::Archive;
use refusals::{Cause, Layer, Refusal};
use rows::{Fault, Row};

// No `From`: both types are of crates below, where `rows` sees no refusals and they see no rows.
fn refused(fault: Fault, offset: usize) -> Refusal
    ensures { result ≡ faulty fault offset }
{
    let cause = match fault {
        Fault::Short => Cause::PartialRow,
        Fault::Mark => Cause::UnknownMark,
        Fault::Field => Cause::UnlawfulRow,
    };
    Refusal::new(cause, Layer::Archive).at(offset)
}

// Every row of the bytes can be read, or the first that cannot is answered.
fn check_rows(bytes: &[u8]) -> Result<(), Refusal>
    ensures { result ≡ all_read (length bytes.now / 15) 0 bytes.now }
{
    for (i, row) in bytes.chunks_exact(15).enumerate() {
        Row::read(row).map_err(|fault| refused(fault, i * 15))?;
    }
    Ok(())
}

// Puts the rows of the bytes last.
fn append_rows<A: Archive>(archive: &mut A, bytes: &[u8])
    requires read { all_read (length bytes.now / 15) 0 bytes.now ≡ Ok tt }
    requires room { length bytes.now / 15 ≤ (A.meaning archive.old).free }
    ensures after { A.meaning archive.new ≡ contents ((A.meaning archive.old).rows ++ rows_in (length bytes.now / 15) bytes.now) ((A.meaning archive.old).free - length bytes.now / 15) }
    ensures memory { A.memory archive.new ≡ entered A.Archive.stamped (A.memory archive.old) (length (A.meaning archive.old).rows) (rows_in (length bytes.now / 15) bytes.now) }
    ensures lent { A.lent archive.new ≡ A.lent archive.old }
{
    for row in bytes.chunks_exact(15) {
        let Ok(read) = Row::read(row) else {
            return;
        };
        let _ = archive.append(read.row);
    }
}

/// Reads the bytes and appends all their rows, or none, and answers how many: 30 for bytes that are not whole
/// rows, then each row in turn (31, 32, at its offset), then 27 for more rows than free places.
pub fn take_in<A: Archive>(archive: &mut A, bytes: &[u8]) -> Result<usize, Refusal>
    ensures answer { result ≡ taking_in (A.meaning archive.old) bytes.now }
    ensures after { A.meaning archive.new ≡ taken_in (A.meaning archive.old) bytes.now }
    ensures memory { A.memory archive.new ≡ kept result (entered A.Archive.stamped (A.memory archive.old) (length (A.meaning archive.old).rows) (rows_in (length bytes.now / 15) bytes.now)) (A.memory archive.old) }
    ensures lent { A.lent archive.new ≡ A.lent archive.old }
    ensures again { TakenAgain }
{
    if bytes.len() % 15 != 0 {
        return Err(Refusal::new(Cause::PartialRow, Layer::Archive));
    }
    check_rows(bytes)?;
    let rows = bytes.len() / 15;
    if rows > archive.free_places() {
        return Err(Refusal::new(Cause::ArchiveFull, Layer::Archive));
    }
    append_rows(archive, bytes);
    Ok(rows)
}
