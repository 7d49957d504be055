//! The book of days.
ghost use Rattle.std.specs.Prelude.{◌≡◌};
ghost use Rattle.book.specs.Opening.{opening, last_after, DaysRise};

use crate::ranges::{check, is_hours};
use crate::slip::Slip;
use crate::slip::opened::new_slip;
use refusals::{Cause, Refusal};
use rows::is_day;

/// The book: it knows the last opened day, 0 at first.
#[derive(Drop)]
pub struct Book {
    // A day is compared with it as with any other, and `last_opened` answers it, so none opened is 0 and no Option.
    last_opened: u32,
}

impl Book {
    /// A book in which no day was opened. Whatever calls are made on a book, the days that it opens rise.
    pub fn new() -> Book
        ensures fresh { result.last_opened ≡ 0 }
        ensures rising { DaysRise }
    {
        Book { last_opened: 0 }
    }

    /// The last opened day, 0 if there is none.
    pub fn last_opened(&self) -> u32
        ensures { result ≡ self.now.last_opened }
    {
        self.last_opened
    }

    /// Opens a day of so many hours: gives its slip of stage 1.
    pub fn open(&mut self, day: u32, hours: u32) -> Result<Slip<1>, Refusal>
        ensures answer { result ≡ opening self.old.last_opened day hours }
        ensures after { self.new.last_opened ≡ last_after self.old.last_opened (opening self.old.last_opened day hours) }
    {
        let Book { last_opened } = self;
        check(is_day(day) && is_hours(hours), Cause::OutOfRange)?;
        check(*last_opened < day, Cause::DayNotAfter)?;
        *last_opened = day;
        Ok(new_slip(day, hours))
    }
}
