//! The roster: which supplier serves an account, from which day on.

use std::marker::Model;

/// From a day on, a supplier serves an account. Supplier 0, or any outside 1 to 32, is nobody.
#[derive(Clone, Copy, Default)]
pub struct Entry {
    pub account: u32,
    pub from_day: u32,
    // Entries lie in the user's memory as they came in, so nobody is a number here and no Option.
    pub supplier: u32,
}

/// A list of entries in the user's memory, of which it uses every place up to the 65,536th.
/// Entries are only added.
#[derive(Drop)]
pub struct Roster<'a> {
    // No Vec: library crates take no heap, so the user lends the memory, and the count stands beside it.
    memory: &'a mut [Entry],
    count: usize,
}

impl<'a> Model for Roster<'a> {
    ghost use Rattle.std.specs.Prelude.{◌≤◌, length};
    ghost use Rattle.book.specs.Entries.{Roll};

    ghost Value = { Roll };

    ghost use Rattle.book.specs.Rolls.{roll_of};

    ghost view = { roll_of };

    ghost invariant = { λ r. (r.count ≤ length r.memory.now) × (r.count ≤ 65536) };
}

mod calls;
mod list;
mod places;
mod suppliers;
mod terms;
