//! One line of a journal: what it says, or why it cannot be read.
use crate::call::{Call, Holding};
use crate::scan::{Words, bytes_in, number};
use book::Entry;
use std::alloc::{AllocError, AllocFailed, Global};
use std::fmt;

/// What a line says.
#[derive(Drop)]
pub(crate) enum Line {
    /// The roster has so many places.
    Roster(u32),
    /// The archive is of that kind.
    Archive(Holding),
    /// A call is made.
    Call(Call),
}

/// Why a line cannot be read.
#[derive(Clone, Copy)]
pub(crate) enum Problem {
    UnknownWord,
    WordMissing,
    WordTooMany,
    NoNumber,
    TooLarge,
    NoBytes,
    NoArchive,
    TooLate,
    NoMemory,
}

impl From<AllocError> for Problem {
    fn from(_e: AllocError) -> Problem {
        Problem::NoMemory
    }
}

impl<T: Drop> From<AllocFailed<T>> for Problem {
    fn from(_e: AllocFailed<T>) -> Problem {
        Problem::NoMemory
    }
}

impl fmt::Display for Problem {
    fn fmt<W: fmt::Write>(&self, f: &mut fmt::Formatter<W>) -> fmt::Result {
        f.write_str(match self {
            Problem::UnknownWord => "unknown word",
            Problem::WordMissing => "too few words",
            Problem::WordTooMany => "too many words",
            Problem::NoNumber => "not a number from 0 to 4294967295",
            Problem::TooLarge => "number too large here",
            Problem::NoBytes => "not pairs of hexadecimal digits",
            Problem::NoArchive => "no such archive",
            Problem::TooLate => "roster and archive are chosen before the first call",
            Problem::NoMemory => "no memory left",
        })
    }
}

fn figure_in(word: &[u8]) -> Result<u32, Problem> {
    number(word).ok_or(Problem::NoNumber)
}

fn up_to(most: u32, value: u32) -> Result<u32, Problem> {
    if value > most {
        return Err(Problem::TooLarge);
    }
    Ok(value)
}

impl Words<'_> {
    fn figure(&mut self) -> Result<u32, Problem> {
        figure_in(self.next().ok_or(Problem::WordMissing)?)
    }

    fn end(&mut self) -> Result<(), Problem> {
        if self.next().is_some() {
            return Err(Problem::WordTooMany);
        }
        Ok(())
    }

    // So many numbers, which end the line.
    fn figures<const N: usize>(&mut self) -> Result<[u32; N], Problem> {
        let mut figures = [0; N];
        for figure in figures.iter_mut() {
            *figure = self.figure()?;
        }
        self.end()?;
        Ok(figures)
    }

    fn entry(&mut self) -> Result<Entry, Problem> {
        let [account, from_day, supplier] = self.figures::<3>()?;
        Ok(Entry {
            account,
            from_day,
            supplier,
        })
    }
}

// `archive bytes BYTES` or `archive table`.
fn read_archive(words: &mut Words) -> Result<Holding, Problem> {
    match words.next() {
        Some(b"bytes") => {
            let [size] = words.figures::<1>()?;
            Ok(Holding::Bytes(up_to(2_000_000, size)?))
        }
        Some(b"table") => {
            words.end()?;
            Ok(Holding::Table)
        }
        Some(_) => Err(Problem::NoArchive),
        None => Err(Problem::WordMissing),
    }
}

// `takein HEX`, or `takein` alone for no bytes.
fn read_take_in(heap: Global, words: &mut Words) -> Result<Call, Problem> {
    let digits = words.next().unwrap_or_default();
    words.end()?;
    let bytes = bytes_in(heap, digits)?.ok_or(Problem::NoBytes)?;
    Ok(Call::TakeIn(bytes))
}

// `list DAY HOUR`, or `list DAY HOUR BYTES`.
fn read_list(words: &mut Words) -> Result<Call, Problem> {
    let day = words.figure()?;
    let hour = words.figure()?;
    let bytes = words.next().map(figure_in).transpose()?;
    words.end()?;
    let bytes = bytes.map(|size| up_to(1_000_000, size)).transpose()?;
    Ok(Call::List { day, hour, bytes })
}

// The calls by their first word.
fn read_call(heap: Global, word: &[u8], words: &mut Words) -> Result<Call, Problem> {
    match word {
        b"enrol" => Ok(Call::Enrol(words.entry()?)),
        b"switch" => Ok(Call::Switch(words.entry()?)),
        b"drop" => {
            let [account, from_day] = words.figures::<2>()?;
            Ok(Call::Drop { account, from_day })
        }
        b"open" => {
            let [day, hours] = words.figures::<2>()?;
            Ok(Call::Open { day, hours })
        }
        b"turn" => {
            let [day] = words.figures::<1>()?;
            Ok(Call::Turn { day })
        }
        b"close" => {
            let [day] = words.figures::<1>()?;
            Ok(Call::Close { day })
        }
        b"takein" => read_take_in(heap, words),
        b"list" => read_list(words),
        b"dump" => {
            words.end()?;
            Ok(Call::Dump)
        }
        _ => Err(Problem::UnknownWord),
    }
}

/// Reads a line: nothing where it is blank, or a comment.
pub(crate) fn read_line(heap: Global, line: &[u8]) -> Result<Option<Line>, Problem> {
    let mut words = Words::new(line);
    let line = match words.next() {
        None | Some([b'#', ..]) => return Ok(None),
        Some(b"roster") => {
            let [places] = words.figures::<1>()?;
            Line::Roster(up_to(1_000_000, places)?)
        }
        Some(b"archive") => Line::Archive(read_archive(&mut words)?),
        Some(word) => Line::Call(read_call(heap, word, &mut words)?),
    };
    Ok(Some(line))
}
