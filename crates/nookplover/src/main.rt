//! `nookplover`: reads a journal of calls, makes each, and prints what it did.
#![tactic(auto)]

use archive::Archive;
use archive::bytes::ByteArchive;
use archive::table::TableArchive;
use book::{Entry, Roster};
use call::Holding;
use desk::Desk;
use journal::{Journal, Unreadable, read_journal};
use printer::Printer;
use std::io::Read;
use std::process::ExitCode;
use std::{env, fmt, fs, io};

mod answer;
mod call;
mod desk;
mod journal;
mod line;
mod print;
mod printer;
mod scan;
mod slips;

/// Where the journal comes from.
// No Option of a name: each is a place to read from, and neither is a missing one.
#[derive(Drop)]
enum Source {
    File(String),
    Input,
}

/// Why the program ends without having run its journal to the end.
#[derive(Drop)]
enum Failure {
    Usage,
    Journal(Unreadable),
    Input(io::Error),
    Output(io::Error),
}

impl fmt::Display for Failure {
    fn fmt<W: fmt::Write>(&self, f: &mut fmt::Formatter<W>) -> fmt::Result {
        match self {
            Failure::Usage => write!(f, "usage: nookplover [run FILE | run -]"),
            Failure::Journal(unreadable) => write!(f, "{unreadable}"),
            Failure::Input(e) => write!(f, "nookplover: the journal cannot be read: {e}"),
            Failure::Output(e) => write!(f, "nookplover: the output cannot be written: {e}"),
        }
    }
}

fn find_source(rt: &HostRuntime) -> Result<Source, Failure> {
    let mut words = env::args(rt).map_err(|_| Failure::Usage)?;
    let _program = words.next();
    let Some(verb) = words.next() else {
        return Ok(Source::Input);
    };
    match (words.next(), words.next()) {
        (Some(name), None) if verb.as_str() == "run" => match name.as_str() {
            "-" => Ok(Source::Input),
            _ => Ok(Source::File(name)),
        },
        _ => Err(Failure::Usage),
    }
}

fn read_all(rt: &HostRuntime, source: &Source) -> io::Result<Vec<u8>> {
    match source {
        Source::File(name) => fs::read(rt, name.as_str()),
        Source::Input => {
            let mut bytes = Vec::new(rt.alloc());
            rt.stdin().read_to_end(&mut bytes)?;
            Ok(bytes)
        }
    }
}

// Slips that are open at the end are closed whatever came, since they must be.
fn run_on<A: Archive>(rt: &HostRuntime, journal: &Journal, archive: &mut A) -> io::Result<()> {
    let heap = rt.alloc();
    let mut entries = vec![in heap; Entry::default(); journal.roster as usize]?;
    let mut printer = Printer::new(heap, rt.stdout())?;
    let mut desk = Desk::new(heap, Roster::new(&mut entries), archive)?;
    let ran = desk.run(&journal.calls, &mut printer);
    desk.close();
    ran
}

// Runs the journal with the archive that it asks for.
fn run_journal(rt: &HostRuntime, journal: &Journal) -> io::Result<()> {
    match journal.holding {
        Holding::Bytes(size) => {
            let mut memory = vec![in rt.alloc(); 0u8; size as usize]?;
            run_on(rt, journal, &mut ByteArchive::new(&mut memory))
        }
        Holding::Table => run_on(rt, journal, &mut TableArchive::new()),
    }
}

fn program(rt: &HostRuntime) -> Result<(), Failure> {
    let source = find_source(rt)?;
    let text = read_all(rt, &source).map_err(Failure::Input)?;
    let journal = read_journal(rt.alloc(), text.as_slice()).map_err(Failure::Journal)?;
    run_journal(rt, &journal).map_err(Failure::Output)
}

// A failure is told in one line of its own, so `main` answers a status and no error.
fn main(rt: HostRuntime) -> ExitCode {
    match program(&rt) {
        Ok(()) => ExitCode::SUCCESS,
        Err(failure) => {
            let _ = eprintln!(rt; "{failure}");
            ExitCode::FAILURE
        }
    }
}
