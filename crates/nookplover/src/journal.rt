//! The journal as a whole.
use crate::call::{Call, Holding};
use crate::line::{Line, Problem, read_line};
use crate::scan::Lines;
use std::alloc::Global;
use std::fmt;

/// A journal that could be read to its end.
#[derive(Drop)]
pub(crate) struct Journal {
    /// How many places the roster has.
    pub(crate) roster: u32,
    pub(crate) holding: Holding,
    pub(crate) calls: Vec<Call>,
}

/// The first line that cannot be read, counted from 1.
#[derive(Clone, Copy)]
pub(crate) struct Unreadable {
    line: usize,
    problem: Problem,
}

impl fmt::Display for Unreadable {
    fn fmt<W: fmt::Write>(&self, f: &mut fmt::Formatter<W>) -> fmt::Result {
        let Unreadable { line, problem } = self;
        write!(f, "journal: line {line}: {problem}")
    }
}

impl Journal {
    fn new(heap: Global) -> Journal {
        Journal {
            roster: 65_536,
            holding: Holding::Bytes(983_040),
            calls: Vec::new(heap),
        }
    }

    // Roster and archive are chosen before the first call; the last choice counts.
    fn add(&mut self, line: Line) -> Result<(), Problem> {
        match line {
            Line::Call(call) => self.calls.push(call)?,
            _ if !self.calls.is_empty() => return Err(Problem::TooLate),
            Line::Roster(places) => self.roster = places,
            Line::Archive(holding) => self.holding = holding,
        }
        Ok(())
    }

    fn read(&mut self, heap: Global, line: &[u8]) -> Result<(), Problem> {
        match read_line(heap, line)? {
            Some(line) => self.add(line),
            None => Ok(()),
        }
    }
}

/// Reads a whole journal, or tells the first line that cannot be read.
pub(crate) fn read_journal(heap: Global, text: &[u8]) -> Result<Journal, Unreadable> {
    let mut journal = Journal::new(heap);
    for (line, bytes) in (1..).zip(Lines::new(text)) {
        journal
            .read(heap, bytes)
            .map_err(|problem| Unreadable { line, problem })?;
    }
    Ok(journal)
}
