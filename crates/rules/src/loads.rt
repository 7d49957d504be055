//! Loads from figures that are in range.
ghost use Rattle.std.specs.Prelude.{◌≡◌, ◌*◌, ◌<◌};
ghost use Rattle.rules.specs.Loads.{rounded, profiled_load, demand_load};

use crate::ranges::{Coincidence, LossFactor, ProfileLoad, ProfileUsage, Usage};

/// The one place where a load is rounded.
fn rounded_load(n: u64, d: u64) -> u64
    requires { 0 < d }
    ensures { result ≡ rounded n d }
{
    n / d
}

/// Of a reading that is not missing.
pub(crate) fn interval_load(loss: LossFactor, reading: Usage) -> u64
    ensures { result ≡ rounded (reading.value * loss.value) 10000 }
{
    rounded_load(reading.wide() * loss.wide(), 10_000)
}

pub(crate) fn profiled_load(
    loss: LossFactor,
    profile: ProfileLoad,
    billed: Usage,
    usage: ProfileUsage,
) -> u64
    ensures { result ≡ profiled_load loss.value profile.value billed.value usage.value }
{
    rounded_load(
        profile.wide() * billed.wide() * loss.wide(),
        usage.wide() * 10_000,
    )
}

pub(crate) fn demand_load(loss: LossFactor, demand: Usage, factor: Coincidence) -> u64
    ensures { result ≡ demand_load loss.value demand.value factor.value }
{
    rounded_load(demand.wide() * factor.wide() * loss.wide(), 100_000_000)
}
