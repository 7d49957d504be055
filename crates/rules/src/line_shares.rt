//! What each line receives of both totals.
ghost use Rattle.std.specs.Prelude.{◌≡◌, ◌+◌, map, sum_by};
ghost use Rattle.rules.specs.Pots.{left_of_both};

use crate::pots::Pot;
use crate::sharing::{MOST, Weighted, weigh};
use refusals::{Cause, Layer, Refusal};

/// The shares of the lines that are left, each out of both pots: a line has weight in one group, and receives 0 of the
/// other's total.
#[derive(Drop)]
pub(crate) struct Shares<'a, L: Weighted> {
    first: Pot,
    second: Pot,
    lines: &'a [L],
    ghost first_left: { first.served + sum_by L.in_first lines.now ≡ first.whole },
    ghost second_left: { second.served + sum_by L.in_second lines.now ≡ second.whole },
}

impl<'a, L: Weighted> Shares<'a, L> {
    ghost use Rattle.std.specs.Prelude.{MatchResult, Ok, Err};
    ghost use Rattle.rules.specs.Shares.{sharing, finals};

    /// Refused unless each line has a place.
    pub(crate) fn new(
        first: u64,
        second: u64,
        lines: &'a [L],
        places: usize,
    ) -> Result<Shares<'a, L>, Refusal>
        ensures { MatchResult result
            (λ s. (sharing first second (map L.in_first lines.now) (map L.in_second lines.now) places ≡ Ok tt)
            × (left_of_both L.in_first L.in_second s.first s.second s.lines.now ≡ finals first second (map L.in_first lines.now) (map L.in_second lines.now)))
            (λ e. sharing first second (map L.in_first lines.now) (map L.in_second lines.now) places ≡ Err e) }
    {
        if first > MOST || second > MOST {
            return Err(Refusal::new(Cause::OutOfRange, Layer::Sheet));
        }
        if places < lines.len() {
            return Err(Refusal::new(Cause::ListTooShort, Layer::Sheet));
        }
        let (first_whole, second_whole) = weigh(lines)?;
        Ok(Shares {
            first: Pot::new(first, first_whole),
            second: Pot::new(second, second_whole),
            lines,
        })
    }
}

impl<'a, L: Weighted> Iterator for Shares<'a, L> {
    ghost use Rattle.std.specs.Iterator.{YieldsFirst, item_count};

    type Item = u64;

    ghost next_gives = { YieldsFirst (λ s. left_of_both L.in_first L.in_second s.first s.second s.lines.now) };

    ghost remaining = { item_count (λ s. left_of_both L.in_first L.in_second s.first s.second s.lines.now) };

    fn next(&mut self) -> Option<u64> {
        let (line, others) = self.lines.split_first()?;
        self.lines = others;
        let (w, v) = line.weights();
        Some(self.first.serve(w) + self.second.serve(v))
    }
}
