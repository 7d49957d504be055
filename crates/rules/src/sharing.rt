//! Sharing totals over the lines of a sheet by their weights.
ghost use Rattle.std.specs.Prelude.{◌≡◌, ℕ, ◌+◌, nat_le, map, length};
ghost use Rattle.rules.specs.Ranges.{most};
ghost use Rattle.rules.specs.Shares.{weighed, sharing, shared, SharingLaws};

use crate::line_shares::Shares;
use refusals::{Cause, Layer, Refusal};

/// A line that has a weight in one of two groups, and a unit in which its share is counted.
pub trait Weighted {
    /// What a share is counted in.
    type Unit: Copy;

    ghost in_first: { Self → ℕ };

    ghost in_second: { Self → ℕ };

    ghost amounts: { ℕ → Self.Unit };

    /// The line's weight in the first group and in the second.
    fn weights(&self) -> (u64, u64)
        ensures { result ≡ (in_first self.now, in_second self.now) };

    /// So many units.
    // Not `From<u64>` on the unit: here the clauses name its value, and there only a relation.
    fn amount(n: u64) -> Self::Unit
        ensures { result ≡ amounts n };
}

/// No zone load, allocation or sum of loads is above this.
pub const MOST: u64 = 3_000_000_000;

/// Whether both loads together are at most that.
pub(crate) fn within_most(first: u64, second: u64) -> bool
    ensures { result ≡ nat_le (first + second) most }
{
    first <= MOST && second <= MOST - first
}

/// The weights of the two groups; refused if together they are above the most.
// A pair, as in the definitions: every clause would take a struct apart.
pub fn weigh<L: Weighted>(lines: &[L]) -> Result<(u64, u64), Refusal>
    ensures { result ≡ weighed (map L.in_first lines.now) (map L.in_second lines.now) }
{
    let mut first: u64 = 0;
    let mut second: u64 = 0;
    for line in lines {
        let (w, v) = line.weights();
        if w > MOST - first - second || v > MOST - first - second - w {
            return Err(Refusal::new(Cause::LoadsTooHigh, Layer::Sharing));
        }
        first += w;
        second += v;
    }
    Ok((first, second))
}

/// Shares the first total over the lines by their weights in the first group and the second likewise, and writes what
/// each line receives to the list, whose further places keep what they have.
#[tactic(auto, using(crate::proofs::Shares::sharing_laws))]
pub fn share<L: Weighted>(
    first: u64,
    second: u64,
    lines: &[L],
    list: &mut [L::Unit],
) -> Result<(), Refusal>
    ensures answer { result ≡ sharing first second (map L.in_first lines.now) (map L.in_second lines.now) (length list.old) }
    ensures written { list.new ≡ shared L.amounts first second (map L.in_first lines.now) (map L.in_second lines.now) list.old }
    ensures laws { SharingLaws }
{
    let mut shares = Shares::new(first, second, lines, list.len())?;
    // Of what a loop over `list.iter_mut().zip(shares)` wrote, a proof knows nothing.
    for place in list.iter_mut() {
        let Some(share) = shares.next() else { break };
        *place = L::amount(share);
    }
    Ok(())
}
