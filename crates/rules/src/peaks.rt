//! The lines of a peak sheet.
ghost use Rattle.std.specs.Prelude.{◌≡◌};
ghost use Rattle.std.specs.Result.{result_err, result_unwrap_or};
ghost use Rattle.rules.specs.Peaks.{basis_by, peak_cause_of, weight_of, no_weight, power};
ghost use Rattle.rules.specs.Bases.{bare, basis_in, if_further_fits, ratio_on, load_if_fits, average_if_fits, based, based_in};

use crate::loads::{demand_load, interval_load, profiled_load};
use crate::ranges::{Account, Coincidence, LossFactor, ProfileLoad, ProfileUsage, Usage, in_ratio};
use crate::sharing::Weighted;
use crate::units::Power;
use refusals::Cause;

/// A line of a peak sheet. What its figures and its two further numbers are depends on its kind.
#[derive(Clone, Copy)]
pub struct PeakLine {
    pub account: u32,
    pub loss_factor: u32,
    /// 1: readings; 2: profile loads; 3: coincidence factors.
    // A number, since another kind must be refused and not be unsayable.
    pub kind: u32,
    /// Readings, profile loads or coincidence factors, by kind.
    pub figures: [u32; 5],
    /// The billed usage in kind 2, the highest demand in kind 3, else 0.
    pub usage: u32,
    /// The profile usage in kind 2, else 0.
    pub profile_usage: u32,
}

/// What a kind makes of the five figures, with its further numbers.
#[derive(Clone, Copy)]
enum Basis {
    Readings,
    Profile { billed: Usage, usage: ProfileUsage },
    Demand { highest: Usage },
}

impl Basis {
    /// Refused if there is no such kind, or if a further number is not in range.
    fn by_kind(kind: u32, n: u32, m: u32) -> Result<Basis, Cause>
        ensures { basis_in result ≡ if_further_fits (basis_by kind n m) }
    {
        match (kind, n, m) {
            (1, 0, 0) => Ok(Basis::Readings),
            (2, billed, usage) => Ok(Basis::Profile {
                billed: Usage::new(billed)?,
                usage: ProfileUsage::new(usage)?,
            }),
            (3, highest, 0) => Ok(Basis::Demand {
                highest: Usage::new(highest)?,
            }),
            _ => Err(Cause::OutOfRange),
        }
    }

    fn in_ratio(self) -> Result<(), Cause>
        ensures { result ≡ ratio_on (bare self) }
    {
        match self {
            Basis::Profile { billed, usage } => in_ratio(billed, usage),
            _ => Ok(()),
        }
    }

    /// The load of a figure, none for a missing reading.
    fn load(self, loss: LossFactor, figure: u32) -> Result<Option<u64>, Cause>
        ensures { result ≡ load_if_fits loss.value (bare self) figure }
    {
        match self {
            Basis::Readings => Ok(Usage::read(figure)?.map(|reading| interval_load(loss, reading))),
            Basis::Profile { billed, usage } => {
                let profile = ProfileLoad::new(figure)?;
                Ok(Some(profiled_load(loss, profile, billed, usage)))
            }
            Basis::Demand { highest } => {
                let factor = Coincidence::new(figure)?;
                Ok(Some(demand_load(loss, highest, factor)))
            }
        }
    }

    // Inlined, with its callers, so that `cause` divides nothing.
    #[inline(always)]
    fn average_load(self, loss: LossFactor, figures: &[u32; 5]) -> Result<u64, Cause>
        ensures { result ≡ average_if_fits loss.value (bare self) figures.now }
    {
        // A `try_fold` over a pair is no plainer.
        let mut total: u64 = 0;
        let mut number: u64 = 0;
        for figure in figures {
            if let Some(load) = self.load(loss, *figure)? {
                total += load;
                number += 1;
            }
        }
        Ok(total.checked_div(number).unwrap_or(0))
    }
}

impl PeakLine {
    /// The loss factor, and what the kind makes of the figures: refused if account, loss factor, kind or a further number
    /// is not in range.
    #[inline(always)]
    fn based(&self) -> Result<(LossFactor, Basis), Cause>
        ensures { based_in result ≡ based self.now }
    {
        Account::new(self.account)?;
        let loss = LossFactor::new(self.loss_factor)?;
        let basis = Basis::by_kind(self.kind, self.usage, self.profile_usage)?;
        Ok((loss, basis))
    }

    #[inline(always)]
    fn checked(&self) -> Result<(), Cause>
        ensures { result_err result ≡ peak_cause_of self.now }
    {
        let (loss, basis) = self.based()?;
        basis.average_load(loss, &self.figures)?;
        basis.in_ratio()
    }

    // No load is made of a line whose billed usage is too high.
    #[inline(always)]
    fn weighed(&self) -> Result<u64, Cause>
        ensures { result_unwrap_or result 0 ≡ weight_of self.now }
    {
        let (loss, basis) = self.based()?;
        basis.in_ratio()?;
        basis.average_load(loss, &self.figures)
    }

    /// The cause for which the line, looked at by itself, is to be refused.
    // `Line` has this and its `load` likewise: a trait for both types would be longer than their bodies of one line.
    pub fn cause(&self) -> Option<Cause>
        ensures { result ≡ peak_cause_of self.now }
    {
        self.checked().err()
    }

    /// The average of the line's present loads; 0 with none present, or if it has a cause to be refused.
    pub fn weight(&self) -> Power
        ensures { result ≡ power (weight_of self.now) }
    {
        Power(self.weighed().unwrap_or(0))
    }
}

/// Peak lines are all of the first group.
impl Weighted for PeakLine {
    type Unit = Power;

    ghost in_first = { weight_of };

    ghost in_second = { no_weight };

    ghost amounts = { power };

    fn weights(&self) -> (u64, u64) {
        (self.weight().0, 0)
    }

    fn amount(n: u64) -> Power {
        Power(n)
    }
}
