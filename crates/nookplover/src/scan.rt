//! The bytes of a journal: lines, words, numbers and hexadecimal pairs.
ghost use Rattle.std.specs.Prelude.{◌≡◌, length, IfOk, vec_items};
ghost use Rattle.std.specs.Iterator.{at_most};
ghost use Rattle.std.specs.Option.{option_map};
ghost use Rattle.nookplover.specs.Words.{blank, without_return, TakesWord, TakesLine};
ghost use Rattle.nookplover.specs.Numerals.{number_in, hex_value, byte_pair, bytes_in};

use std::alloc::{AllocError, Global};

/// The words that a line has left, in their order.
#[derive(Clone, Copy)]
pub(crate) struct Words<'a>(&'a [u8]);

/// The lines that a text has left, in their order, each without its end (LF, or CR and LF).
#[derive(Clone, Copy)]
pub(crate) struct Lines<'a>(&'a [u8]);

fn is_blank(b: u8) -> bool
    ensures { result ≡ blank b }
{
    matches!(b, b' ' | b'\t')
}

impl<'a> Words<'a> {
    /// The words of a line.
    pub(crate) fn new(line: &'a [u8]) -> Words<'a>
        ensures { result.0.now ≡ line.now }
    {
        Words(line)
    }
}

impl<'a> Iterator for Words<'a> {
    type Item = &'a [u8];

    ghost next_gives = { λ s word t. TakesWord s.0.now word t.0.now };

    fn next(&mut self) -> Option<&'a [u8]> {
        let line = self.0;
        let start = line.iter().position(|b| !is_blank(*b))?;
        let (_, words) = line.split_at(start);
        let end = words.iter().position(|b| is_blank(*b));
        let (word, rest) = words.split_at(end.unwrap_or(words.len()));
        self.0 = rest;
        Some(word)
    }
}

fn without_return(line: &[u8]) -> &[u8]
    ensures { result.now ≡ without_return line.now }
{
    match line {
        [line @ .., b'\r'] => line,
        _ => line,
    }
}

impl<'a> Lines<'a> {
    /// The lines of a text.
    pub(crate) fn new(text: &'a [u8]) -> Lines<'a>
        ensures { result.0.now ≡ text.now }
    {
        Lines(text)
    }
}

impl<'a> Iterator for Lines<'a> {
    type Item = &'a [u8];

    ghost next_gives = { λ s line t. TakesLine s.0.now line t.0.now };

    ghost remaining = { λ s. at_most (length s.0.now) };

    fn next(&mut self) -> Option<&'a [u8]> {
        let text = self.0;
        if text.is_empty() {
            return None;
        }
        let Some(end) = text.iter().position(|b| *b == b'\n') else {
            self.0 = b"";
            return Some(text);
        };
        self.0 = &text[end + 1..];
        Some(without_return(&text[..end]))
    }
}

/// The number that a word writes: one or more digits, and no more than 4294967295.
pub(crate) fn number(word: &[u8]) -> Option<u32>
    ensures { result ≡ number_in word.now }
{
    if word.is_empty() {
        return None;
    }
    let mut value = 0u32;
    // `parse` takes longer: it wants text, and a sign has to be kept from it.
    for b in word {
        if !b.is_ascii_digit() {
            return None;
        }
        value = value.checked_mul(10)?.checked_add(u32::from(*b - b'0'))?;
    }
    Some(value)
}

fn hex_value(b: u8) -> Option<u8>
    ensures { result ≡ hex_value b }
{
    char::from(b).to_digit(16).map(|digit| digit as u8)
}

fn byte_pair(high: u8, low: u8) -> Option<u8>
    ensures { result ≡ byte_pair high low }
{
    Some(hex_value(high)? * 16 + hex_value(low)?)
}

/// The bytes that a word writes as pairs of hexadecimal digits.
pub(crate) fn bytes_in(heap: Global, word: &[u8]) -> Result<Option<Vec<u8>>, AllocError>
    ensures { IfOk result (λ o. option_map vec_items o ≡ bytes_in word.now) }
{
    let mut bytes = Vec::with_capacity(heap, word.len() / 2)?;
    let mut rest = word;
    // Not `chunks_exact`: the definition takes pairs from the front too.
    while let [high, low, after @ ..] = rest {
        let Some(byte) = byte_pair(*high, *low) else {
            return Ok(None);
        };
        bytes.push_reserved(byte);
        rest = after;
    }
    Ok(rest.is_empty().then_some(bytes))
}
