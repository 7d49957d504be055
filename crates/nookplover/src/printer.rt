//! What waits to be written.
ghost use Rattle.std.specs.Prelude.{◌≡◌, ◌++◌, OnOk};
ghost use Rattle.std.specs.Fmt.{AppendsText};

use std::alloc::{AllocError, Global};
use std::io::Write;
use std::{fmt, io};

// Text is written once there is so much of it.
const MUCH: usize = 65_536;

// What is printed of a call is seldom more: the bytes of a `takein`, a dump.
const LINE: usize = 1_024;

/// Text that waits, all that was printed of the calls, and where it is written.
// No `BufWriter`: it parts what belongs together, and where a write failed it writes once more when it is dropped.
#[derive(Drop)]
pub(crate) struct Printer<W> {
    waiting: Vec<u8>,
    output: W,
}

impl<W> fmt::Write for Printer<W> {
    ghost write_str_gives = { λ old text new. new.waiting.items ≡ old.waiting.items ++ text };

    #[inline(always)]
    fn write_str(&mut self, text: &str) -> fmt::Result {
        self.put(text.as_bytes()).map_err(|_| fmt::Error)
    }
}

impl<W> Printer<W> {
    /// Puts bytes behind what waits.
    #[inline(always)]
    pub(crate) fn put(&mut self, bytes: &[u8]) -> Result<(), AllocError>
        ensures { OnOk result (self.new.waiting.items ≡ self.old.waiting.items ++ bytes.now) }
    {
        self.waiting.extend_from_slice(bytes)
    }

    /// Puts what is to be shown behind what waits.
    #[inline(always)]
    pub(crate) fn show<D: fmt::Display + Drop>(&mut self, text: D) -> Result<(), AllocError>
        ensures { OnOk result (AppendsText self.old.waiting.items self.new.waiting.items (D.output text)) }
    {
        match fmt::Write::write(self, text) {
            Ok(()) => Ok(()),
            Err(_) => Err(AllocError),
        }
    }
}

impl<W: Drop> Printer<W> {
    /// Nothing waits.
    pub(crate) fn new(heap: Global, output: W) -> Result<Printer<W>, AllocError> {
        let waiting = Vec::with_capacity(heap, MUCH + LINE)?;
        Ok(Printer { waiting, output })
    }
}

impl<W: Write> Printer<W> {
    /// Writes what waits.
    pub(crate) fn write(&mut self) -> io::Result<()> {
        self.output.write_all(self.waiting.as_slice())?;
        self.waiting.clear();
        Ok(())
    }

    /// Writes what waits, if that is much.
    pub(crate) fn write_much(&mut self) -> io::Result<()> {
        if self.waiting.len() >= MUCH {
            self.write()?;
        }
        Ok(())
    }
}
