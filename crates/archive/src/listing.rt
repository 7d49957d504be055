ghost use Rattle.std.specs.Prelude.{◌≡◌, ℕ, ◌≤◌, length, IfOk};
ghost use Rattle.archive.specs.Contents.{kept};
ghost use Rattle.archive.specs.Listing.{listable, listed_kind, fitting, overwritten, listing, listed};

use crate::Archive;
use crate::sums::hour_sums;
use refusals::{Cause, Layer, Refusal};
use rows::{Kind, is_day};

mod text;

use text::text_of;

// Day and hour come in as plain figures and are refused by number, so there is no struct of them.
fn is_listable(day: u32, hour: u32) -> bool
    ensures { result ≡ listable day hour }
{
    is_day(day) && hour <= 25
}

fn listed_kind(hour: u32) -> Kind
    ensures { result ≡ listed_kind hour }
{
    if hour == 0 { Kind::Peak } else { Kind::Energy }
}

// Writes the text into the memory's first places, where it fits.
fn write(text: &str, out: &mut [u8]) -> Result<usize, Refusal>
    ensures answer { result ≡ fitting text.now (length out.old) }
    ensures written { out.new ≡ kept result (overwritten text.now out.old) out.old }
{
    let length = text.len();
    if length > out.len() {
        return Err(Refusal::new(Cause::TextTooLong, Layer::Archive));
    }
    out[..length].copy_from_slice(text.as_bytes());
    Ok(length)
}

/// Writes the listing of a day and hour (0 lists peaks) into the memory, and answers its length: a line
/// `supplier sum` for each supplier whose rows do not add up to 0, and then `zone sum`. 10 for a day or hour out
/// of range, then 33 where the text does not fit. No text is longer than 720 bytes.
pub fn list<A: Archive>(archive: &A, day: u32, hour: u32, out: &mut [u8]) -> Result<usize, Refusal>
    ensures answer { result ≡ listing day hour (A.meaning archive.now).rows (length out.old) }
    ensures short { IfOk result (λ n. n ≤ 720) }
    ensures written { out.new ≡ listed day hour (A.meaning archive.now).rows out.old }
{
    if !is_listable(day, hour) {
        return Err(Refusal::new(Cause::OutOfRange, Layer::Archive));
    }
    let sums = hour_sums(archive, listed_kind(hour), day, hour);
    let text = text_of(&sums);
    write(text.as_str(), out)
}
