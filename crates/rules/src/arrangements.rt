//! Arrangements: how unaccounted energy is parted between the interval and the profiled lines.
ghost use Rattle.std.specs.Prelude.{◌≡◌, ℕ, ◌+◌, ◌≤◌, false, ℤ, pos, ◌+ℤ◌, ◌-ℤ◌, unsigned_abs};
ghost use Rattle.rules.specs.Ranges.{most};
ghost use Rattle.rules.specs.Parts.{can_part, portion, percent_parts, pro_rata_parts, Sided};
ghost use Rattle.rules.specs.Percents.{percentage, made_of};
ghost use Rattle.rules.specs.Portions.{portion-between, parted-sided};
ghost use Rattle.std.proofs.Common.{rules, arith};

use crate::percent::Percent;
use crate::sharing::{MOST, within_most};
use refusals::{Cause, Layer, Refusal};

/// A way to part unaccounted energy. Whoever makes one has to show the laws.
pub trait Arrangement {
    ghost meaning: { Self → ℤ → ℕ → ℕ → ℤ × ℤ };

    /// The interval part and the profiled part of the unaccounted energy, by the interval load and the profiled load.
    fn parts(&self, unaccounted: i64, interval: u64, profiled: u64) -> (i64, i64)
        ensures { result ≡ meaning self.now unaccounted interval profiled };

    ghost whole: { (a : Self) (u : ℤ) (wi wp : ℕ) → (meaning a u wi wp).0 +ℤ (meaning a u wi wp).1 ≡ u };

    ghost sided: { (a : Self) (u : ℤ) (wi wp : ℕ) → Sided u (meaning a u wi wp).0 × Sided u (meaning a u wi wp).1 };

    ghost bounded: { (a : Self) (u : ℤ) (wi wp : ℕ) → can_part u wi wp ≡ false → meaning a u wi wp ≡ (pos 0, u) };
}

/// Whether so much unaccounted energy can be parted at these loads: else all of it goes to the profiled lines.
pub fn can_part(unaccounted: i64, interval: u64, profiled: u64) -> bool
    ensures { result ≡ can_part unaccounted interval profiled }
{
    within_most(interval, profiled) && unaccounted.unsigned_abs() <= MOST
}

/// u × a / b, rounded toward zero.
fn portion_of(u: i64, a: u64, b: u64) -> i64
    requires small { unsigned_abs u ≤ most }
    requires part { a ≤ b }
    requires limit { b ≤ most }
    ensures value { result ≡ portion u a b }
    ensures small { unsigned_abs result ≤ unsigned_abs u }
{
    if b == 0 { 0 } else { u * a as i64 / b as i64 }
}

/// The same, and the rest of u.
fn portion_and_rest(u: i64, a: u64, b: u64) -> (i64, i64)
    requires small { unsigned_abs u ≤ most }
    requires part { a ≤ b }
    requires limit { b ≤ most }
    ensures { result ≡ (portion u a b, u -ℤ portion u a b) }
{
    let part = portion_of(u, a, b);
    (part, u - part)
}

impl Percent {
    /// The percentage p; refused above 100.
    pub fn new(p: u32) -> Result<Percent, Refusal>
        ensures { made_of result ≡ percentage p }
    {
        if p <= 100 {
            Ok(Percent { value: p })
        } else {
            Err(Refusal::new(Cause::OutOfRange, Layer::Sheet))
        }
    }
}

impl Arrangement for Percent {
    ghost meaning = { λ a. percent_parts a.value };

    ghost whole = { first_of (Prim.search rules, Prim.grind (arith, Self.row.coded.inj)) };

    ghost sided = { λ a u wi wp. parted-sided u wi wp (portion u a.value 100) (portion-between u a.value 100 a.ok) };

    ghost bounded = { first_of (Prim.search rules, Prim.grind (arith, Self.row.coded.inj)) };

    fn parts(&self, unaccounted: i64, interval: u64, profiled: u64) -> (i64, i64) {
        if can_part(unaccounted, interval, profiled) {
            portion_and_rest(unaccounted, u64::from(self.value), 100)
        } else {
            (0, unaccounted)
        }
    }
}

/// Parts in proportion to the loads.
#[derive(Clone, Copy)]
pub struct ProRata;

impl Arrangement for ProRata {
    ghost meaning = { λ _. pro_rata_parts };

    ghost whole = { Prim.search rules };

    ghost sided = { λ a u wi wp. parted-sided u wi wp (portion u wi (wi + wp)) (portion-between u wi (wi + wp) (omega arith)) };

    ghost bounded = { Prim.search rules };

    // Not one function with `Percent`'s: the whole would be a parameter, and only after the test may loads be added.
    fn parts(&self, unaccounted: i64, interval: u64, profiled: u64) -> (i64, i64) {
        if can_part(unaccounted, interval, profiled) {
            portion_and_rest(unaccounted, interval, interval + profiled)
        } else {
            (0, unaccounted)
        }
    }
}
