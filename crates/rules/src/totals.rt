//! What each group is to share.
ghost use Rattle.std.specs.Prelude.{◌≡◌, ◌+◌, ◌≤◌, pos, ◌+ℤ◌, IfOk, unsigned_abs};
ghost use Rattle.rules.specs.Ranges.{most};
ghost use Rattle.rules.specs.Parts.{unaccounted};
ghost use Rattle.rules.specs.Totals.{unloaded, natural, lawful_totals, group_totals};

use crate::arrangements::Arrangement;
use crate::sharing::{MOST, within_most};
use refusals::{Cause, Layer, Refusal};

/// Zone load less the sum of the loads.
// No type carries `≤ most`, here and in `Pot`: it bounds different things (a total, a whole, a load, a signed part),
// each by a check that the caller has just made.
fn unaccounted_for(zone: u64, wi: u64, wp: u64) -> i64
    requires { (zone ≤ most) × (wi + wp ≤ most) }
    ensures value { result ≡ unaccounted zone wi wp }
    ensures small { unsigned_abs result ≤ most }
{
    zone as i64 - (wi + wp) as i64
}

/// A group's load, and the total that its lines are to share.
#[derive(Clone, Copy)]
struct Group {
    load: u64,
    total: i64,
}

impl Group {
    fn new(load: u64, part: i64) -> Group
        requires { (load ≤ most) × (unsigned_abs part ≤ most) }
        ensures { (result.load ≡ load) × (result.total ≡ pos load +ℤ part) }
    {
        Group {
            load,
            total: load as i64 + part,
        }
    }

    /// A total other than 0 where there is no load to share it by.
    fn is_unloaded(self) -> bool
        ensures { result ≡ unloaded self.load self.total }
    {
        self.load == 0 && self.total != 0
    }

    /// The total, refused below 0.
    fn natural(self) -> Result<u64, Refusal>
        ensures { result ≡ natural self.total }
    {
        u64::try_from(self.total).map_err(|_| Refusal::new(Cause::NegativeTotal, Layer::Sharing))
    }
}

fn lawful_totals(first: Group, second: Group) -> Result<(u64, u64), Refusal>
    ensures { result ≡ lawful_totals first.load second.load first.total second.total }
{
    if first.is_unloaded() || second.is_unloaded() {
        return Err(Refusal::new(Cause::UnloadedGroup, Layer::Sharing));
    }
    Ok((first.natural()?, second.natural()?))
}

/// The interval load and the profiled load, each with its part of what is unaccounted for at the zone load.
pub fn group_totals<A: Arrangement>(
    arrangement: &A,
    zone: u64,
    interval: u64,
    profiled: u64,
) -> Result<(u64, u64), Refusal>
    ensures answer { result ≡ group_totals (A.meaning arrangement.now) zone interval profiled }
    ensures whole { IfOk result (λ t. t.0 + t.1 ≡ zone) }
{
    if zone > MOST {
        return Err(Refusal::new(Cause::OutOfRange, Layer::Sheet));
    }
    if !within_most(interval, profiled) {
        return Err(Refusal::new(Cause::LoadsTooHigh, Layer::Sharing));
    }
    let u = unaccounted_for(zone, interval, profiled);
    let (i, p) = arrangement.parts(u, interval, profiled);
    lawful_totals(Group::new(interval, i), Group::new(profiled, p))
}
