//! The slip that opening a day gives.
ghost use Rattle.std.specs.Prelude.{◌≡◌, true};
ghost use Rattle.book.specs.Ranges.{is_day, is_hours};
ghost use Rattle.book.specs.Opening.{new_slip};

use super::Slip;

/// The slip of a day that is opened: stage 1, no hour settled.
pub(crate) fn new_slip(day: u32, hours: u32) -> Slip<1>
    requires dated { is_day day ≡ true }
    requires timed { is_hours hours ≡ true }
    ensures { result ≡ new_slip day hours }
{
    Slip {
        day,
        hours,
        settled: 0,
    }
}
