//! The ranges of figures, and a check that refuses.
ghost use Rattle.std.specs.Prelude.{◌≡◌, Ok};
ghost use Rattle.book.specs.Ranges.{is_hours, unless};

use refusals::{Cause, Layer, Refusal};

/// Whether a day can have so many hours.
pub(crate) fn is_hours(hours: u32) -> bool
    ensures { result ≡ is_hours hours }
{
    (23..=25).contains(&hours)
}

/// A check of the roster or the book: where it fails, the call is refused with the cause.
pub(crate) fn check(passes: bool, cause: Cause) -> Result<(), Refusal>
    ensures { result ≡ unless passes cause (Ok tt) }
{
    if passes {
        Ok(())
    } else {
        Err(Refusal::new(cause, Layer::Roster))
    }
}
