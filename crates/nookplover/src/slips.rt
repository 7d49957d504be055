//! The slips that are open, each at the place of its day.
ghost use Rattle.std.specs.Prelude.{◌≡◌, Some};
ghost use Rattle.nookplover.specs.Texts.{open_line};

use crate::answer::Denial;
use crate::print::write_words;
use book::Slip;
use std::alloc::{AllocError, Global};
use std::{fmt, mem};

/// Days are numbered 1 to 60,000; place 0 stays empty.
const PLACES: usize = 60_001;

/// A slip that is open, in either stage. It has to be closed, so it cannot be let go.
pub(crate) enum Open {
    Estimate(Slip<1>),
    Reconciliation(Slip<2>),
}

/// The open slips. It is ended by `close_all`.
// A map would want memory whenever a day is opened; here no call can want for it.
pub(crate) struct Slips {
    places: Vec<Option<Open>>,
}

// Whatever is open is ended in the way that its stage asks for.
fn end(open: Option<Open>) {
    match open {
        None => {}
        Some(Open::Estimate(slip)) => {
            let _ = slip.turn().close();
        }
        Some(Open::Reconciliation(slip)) => {
            let _ = slip.close();
        }
    }
}

impl fmt::Display for Open {
    ghost output = { λ o. Some (open_line o) };

    fn fmt<W: fmt::Write>(&self, f: &mut fmt::Formatter<W>) -> fmt::Result {
        let (day, stage) = match self {
            Open::Estimate(slip) => (slip.day(), 1),
            Open::Reconciliation(slip) => (slip.day(), 2),
        };
        write_words(f, "open at end", &[u64::from(day), stage])?;
        f.write_str("\n")
    }
}

impl Slips {
    /// No slip is open. Memory for every day is got at once.
    pub(crate) fn new(heap: Global) -> Result<Slips, AllocError> {
        let mut places = Vec::with_capacity(heap, PLACES)?;
        // What fills a list at once has to be something that can be let go, and a slip is not.
        for _day in 0..PLACES {
            places.push_reserved(None);
        }
        Ok(Slips { places })
    }

    /// What is open of each day, from day 0 on.
    pub(crate) fn places(&self) -> &[Option<Open>] {
        self.places.as_slice()
    }

    fn take(&mut self, day: u32) -> Option<Open> {
        self.places.get_mut(day as usize)?.take()
    }

    fn put(&mut self, day: u32, open: Option<Open>) {
        end(match self.places.get_mut(day as usize) {
            Some(place) => mem::replace(place, open),
            None => open,
        });
    }

    /// Keeps the slip of a day that was opened.
    pub(crate) fn keep(&mut self, slip: Slip<1>) {
        self.put(slip.day(), Some(Open::Estimate(slip)));
    }

    /// Turns the slip of a day, if one is open in stage 1.
    // Another slip has to be put back, here and in `close`: a `let .. else` would lose it.
    pub(crate) fn turn(&mut self, day: u32) -> Result<(), Denial> {
        match self.take(day) {
            Some(Open::Estimate(slip)) => {
                self.put(day, Some(Open::Reconciliation(slip.turn())));
                Ok(())
            }
            other => {
                self.put(day, other);
                Err(Denial::NoSlip)
            }
        }
    }

    /// Closes the slip of a day, if one is open in stage 2, and gives what closing it answers.
    pub(crate) fn close(&mut self, day: u32) -> Result<u32, Denial> {
        match self.take(day) {
            Some(Open::Reconciliation(slip)) => Ok(slip.close()),
            other => {
                self.put(day, other);
                Err(Denial::NoSlip)
            }
        }
    }

    /// Ends every slip that is still open.
    pub(crate) fn close_all(self) {
        let Slips { mut places } = self;
        while let Some(place) = places.pop() {
            end(place);
        }
        places.destroy_empty();
    }
}
