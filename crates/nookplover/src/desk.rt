//! The desk, where the calls of a journal are made.
use crate::answer::{Answer, Denial};
use crate::call::Call;
use crate::print::{End, Hex};
use crate::printer::Printer;
use crate::slips::Slips;
use archive::Archive;
use archive::intake::take_in;
use archive::listing::list;
use book::{Book, Roster};
use std::alloc::{AllocError, Global};
use std::io;
use std::io::Write;

// No listing is longer, so a call that gives it more memory is answered the same.
const LISTING: usize = 720;

/// All that calls are made on: the book, the slips of the days that it opened, a roster, an archive, and memory for
/// listings. It holds slips, so it cannot be let go: it is ended by `close`.
pub(crate) struct Desk<'a, A> {
    book: Book,
    slips: Slips,
    roster: Roster<'a>,
    archive: &'a mut A,
    listing: [u8; LISTING],
}

impl<'a, A: Archive> Desk<'a, A> {
    /// A desk with a new book, in which no day was opened.
    pub(crate) fn new(
        heap: Global,
        roster: Roster<'a>,
        archive: &'a mut A,
    ) -> Result<Desk<'a, A>, AllocError> {
        let slips = Slips::new(heap)?;
        Ok(Desk {
            book: Book::new(),
            slips,
            roster,
            archive,
            listing: [0; LISTING],
        })
    }

    /// Ends the desk, and with it every slip that is still open.
    pub(crate) fn close(self) {
        let Desk {
            book: _,
            slips,
            roster: _,
            archive: _,
            listing: _,
        } = self;
        slips.close_all();
    }

    fn open(&mut self, day: u32, hours: u32) -> Result<Answer, Denial> {
        let slip = self.book.open(day, hours)?;
        self.slips.keep(slip);
        Ok(Answer::Accepted)
    }

    // The listing is made in memory of so many bytes as the call gives it.
    fn list(&mut self, day: u32, hour: u32, bytes: Option<u32>) -> Result<Answer, Denial> {
        let size = bytes.map_or(LISTING, |size| LISTING.min(size as usize));
        let archive = &*self.archive;
        let memory = &mut self.listing[..];
        Ok(Answer::Listed(list(archive, day, hour, &mut memory[..size])?))
    }

    // Makes a call.
    fn make(&mut self, call: &Call) -> Result<Answer, Denial> {
        match call {
            Call::Enrol(entry) => {
                self.roster.enrol(&self.book, *entry)?;
                Ok(Answer::Accepted)
            }
            Call::Switch(entry) => {
                self.roster.switch(&self.book, *entry)?;
                Ok(Answer::Accepted)
            }
            Call::Drop { account, from_day } => {
                self.roster.drop(&self.book, *account, *from_day)?;
                Ok(Answer::Accepted)
            }
            Call::Open { day, hours } => self.open(*day, *hours),
            Call::Turn { day } => {
                self.slips.turn(*day)?;
                Ok(Answer::Accepted)
            }
            Call::Close { day } => Ok(Answer::Waiting(self.slips.close(*day)?)),
            Call::TakeIn(bytes) => Ok(Answer::Taken(take_in(self.archive, bytes.as_slice())?)),
            Call::List { day, hour, bytes } => self.list(*day, *hour, *bytes),
            Call::Dump => Ok(Answer::Held(self.archive.count())),
        }
    }

    // Prints what an answer is about: the listing, or the archive's rows.
    fn print_after<W: Write>(&self, answer: Answer, printer: &mut Printer<W>) -> io::Result<()> {
        match answer {
            Answer::Listed(length) => printer.put(&self.listing[..length.min(LISTING)])?,
            Answer::Held(_) => {
                for row in self.archive.rows() {
                    printer.show(Hex(&row.to_bytes()))?;
                    printer.put(b"\n")?;
                }
            }
            _ => {}
        }
        Ok(())
    }

    // Prints what is open at the end, and what archive and roster hold. Days rise as they are opened, so the order of
    // the days is the order of opening.
    fn print_end<W: Write>(&self, printer: &mut Printer<W>) -> io::Result<()> {
        for open in self.slips.places().iter().flatten() {
            printer.show(open)?;
        }
        let end = End {
            rows: self.archive.count(),
            free: self.archive.free_places(),
            entries: self.roster.count(),
        };
        printer.show(end)?;
        Ok(())
    }

    /// Makes every call and prints what it answered, and at the end what is then open, and what archive and roster hold.
    pub(crate) fn run<W: Write>(
        &mut self,
        calls: &[Call],
        printer: &mut Printer<W>,
    ) -> io::Result<()> {
        for call in calls {
            printer.show(call)?;
            printer.put(b" -> ")?;
            match self.make(call) {
                Ok(answer) => {
                    printer.show(answer)?;
                    self.print_after(answer, printer)?;
                }
                Err(denial) => printer.show(denial)?,
            }
            printer.write_much()?;
        }
        self.print_end(printer)?;
        printer.write()
    }
}
