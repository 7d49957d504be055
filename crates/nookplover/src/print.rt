//! What the program prints of calls and answers.
ghost use Rattle.std.specs.Prelude.{◌≡◌, ◌<◌, ◌≤◌, [], ◌∷◌, ◌++◌, length, decimal, Some};
ghost use Rattle.std.specs.Fmt.{WritesOnOk};
ghost use Rattle.nookplover.specs.Numerals.{hex_digit, hex_of};
ghost use Rattle.nookplover.specs.Texts.{worded, call_words, answer_line, denial_line, end_line};

use crate::answer::{Answer, Denial};
use crate::call::Call;
use arrayvec::ArrayString;
use book::Entry;
use itoa::Buffer;
use std::fmt;
use std::fmt::Formatter;

/// Bytes that print as two hexadecimal digits each, in capitals.
#[derive(Clone, Copy)]
pub(crate) struct Hex<'a>(pub(crate) &'a [u8]);

/// The closing line: what archive and roster hold.
#[derive(Clone, Copy)]
pub(crate) struct End {
    pub(crate) rows: usize,
    pub(crate) free: usize,
    pub(crate) entries: usize,
}

// `char::from_digit` gives small letters, and of what `{:X}` writes a proof knows nothing.
fn hex_digit(n: u8) -> u8
    requires { n < 16 }
    ensures { result ≡ hex_digit n }
{
    if n < 10 { b'0' + n } else { b'A' + (n - 10) }
}

fn hex_digits(bytes: &[u8]) -> ArrayString<64>
    requires { length bytes.now ≤ 32 }
    ensures { result.bytes ≡ hex_of bytes.now }
{
    let mut digits = ArrayString::new();
    for b in bytes {
        digits.push(char::from(hex_digit(*b / 16)));
        digits.push(char::from(hex_digit(*b % 16)));
    }
    digits
}

impl fmt::Display for Hex<'_> {
    ghost output = { λ h. Some (hex_of h.0.now) };

    fn fmt<W: fmt::Write>(&self, f: &mut Formatter<W>) -> fmt::Result {
        // To write each digit for itself takes four times as long.
        for chunk in self.0.chunks(32) {
            let digits = hex_digits(chunk);
            f.write_str(digits.as_str())?;
        }
        Ok(())
    }
}

// What is printed of every call goes by these two, since `write!` takes three times as long for a line of a few words.
/// Words, and numbers after them.
pub(crate) fn write_words<W: fmt::Write>(
    f: &mut Formatter<W>,
    words: &str,
    figures: &[u64],
) -> fmt::Result
    ensures { WritesOnOk W.write_str_gives f.old result (worded words.now figures.now) f.new }
{
    f.write_str(words)?;
    for n in figures {
        f.write_str(" ")?;
        f.write_str(Buffer::new().format(*n))?;
    }
    Ok(())
}

// A number, and what follows it.
#[inline(always)]
fn write_count<W: fmt::Write>(f: &mut Formatter<W>, n: u64, unit: &str) -> fmt::Result
    ensures { WritesOnOk W.write_str_gives f.old result (decimal n ++ unit.now) f.new }
{
    f.write_str(Buffer::new().format(n))?;
    f.write_str(unit)
}

fn figures(entry: Entry) -> [u64; 3]
    ensures { result ≡ entry.account ∷ entry.from_day ∷ entry.supplier ∷ [] }
{
    let Entry {
        account,
        from_day,
        supplier,
    } = entry;
    [u64::from(account), u64::from(from_day), u64::from(supplier)]
}

impl fmt::Display for Call {
    ghost output = { λ c. Some (call_words c) };

    fn fmt<W: fmt::Write>(&self, f: &mut Formatter<W>) -> fmt::Result {
        match self {
            Call::Enrol(entry) => write_words(f, "enrol", &figures(*entry)),
            Call::Switch(entry) => write_words(f, "switch", &figures(*entry)),
            Call::Drop { account, from_day } => {
                write_words(f, "drop", &[u64::from(*account), u64::from(*from_day)])
            }
            Call::Open { day, hours } => {
                write_words(f, "open", &[u64::from(*day), u64::from(*hours)])
            }
            Call::Turn { day } => write_words(f, "turn", &[u64::from(*day)]),
            Call::Close { day } => write_words(f, "close", &[u64::from(*day)]),
            Call::TakeIn(bytes) if bytes.is_empty() => f.write_str("takein"),
            Call::TakeIn(bytes) => {
                f.write_str("takein ")?;
                Hex(bytes.as_slice()).fmt(f)
            }
            Call::List {
                day,
                hour,
                bytes: None,
            } => write_words(f, "list", &[u64::from(*day), u64::from(*hour)]),
            Call::List {
                day,
                hour,
                bytes: Some(size),
            } => write_words(
                f,
                "list",
                &[u64::from(*day), u64::from(*hour), u64::from(*size)],
            ),
            Call::Dump => f.write_str("dump"),
        }
    }
}

impl fmt::Display for Answer {
    ghost output = { λ a. Some (answer_line a) };

    fn fmt<W: fmt::Write>(&self, f: &mut Formatter<W>) -> fmt::Result {
        match self {
            Answer::Accepted => f.write_str("ok\n"),
            Answer::Waiting(hours) => write_count(f, u64::from(*hours), "\n"),
            Answer::Listed(length) => write_count(f, *length as u64, "\n"),
            Answer::Taken(rows) | Answer::Held(rows) => write_count(f, *rows as u64, " rows\n"),
        }
    }
}

impl fmt::Display for Denial {
    ghost output = { λ d. Some (denial_line d) };

    fn fmt<W: fmt::Write>(&self, f: &mut Formatter<W>) -> fmt::Result {
        match self {
            Denial::NoSlip => f.write_str("no slip\n"),
            Denial::Refused(refusal) => {
                let (number, layer, place) = refusal.numbers();
                let figures = [u64::from(number), u64::from(layer), place as u64];
                write_words(f, "refused", &figures)?;
                f.write_str("\n")
            }
        }
    }
}

impl fmt::Display for End {
    ghost output = { λ e. Some (end_line e.rows e.free e.entries) };

    fn fmt<W: fmt::Write>(&self, f: &mut Formatter<W>) -> fmt::Result {
        let End {
            rows,
            free,
            entries,
        } = self;
        writeln!(f, "end: {rows} rows, {free} free, {entries} entries")
    }
}
