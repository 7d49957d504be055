//! The lines of a settle sheet.
ghost use Rattle.std.specs.Prelude.{◌≡◌};
ghost use Rattle.std.specs.Result.{result_err, result_unwrap_or};
ghost use Rattle.rules.specs.Lines.{account_of, cause_of, load_of, interval_weight, profiled_weight, energy};

use crate::loads::{interval_load, profiled_load};
use crate::ranges::{Account, LossFactor, ProfileLoad, ProfileUsage, Usage, in_ratio};
use crate::sharing::Weighted;
use crate::units::Energy;
use refusals::Cause;

/// A line of a settle sheet: an account's loss factor, and the figures of its hour.
#[derive(Clone, Copy)]
pub enum Line {
    /// A line of an account that is read every hour. The reading may be missing.
    Interval {
        account: u32,
        loss_factor: u32,
        reading: u32,
    },
    /// A line of an account whose hours are estimated from a profile.
    Profiled {
        account: u32,
        loss_factor: u32,
        profile_load: u32,
        billed_usage: u32,
        profile_usage: u32,
    },
}

impl Line {
    /// The account whose line it is.
    pub fn account(&self) -> u32
        ensures { result ≡ account_of self.now }
    {
        match *self {
            Line::Interval { account, .. } | Line::Profiled { account, .. } => account,
        }
    }

    /// The line's load, or the cause for which it is to be refused.
    fn figured(&self) -> Result<u64, Cause>
        ensures cause { result_err result ≡ cause_of self.now }
        ensures load { result_unwrap_or result 0 ≡ load_of self.now }
    {
        match *self {
            Line::Interval {
                account,
                loss_factor,
                reading,
            } => {
                Account::new(account)?;
                let loss = LossFactor::new(loss_factor)?;
                Ok(Usage::read(reading)?.map_or(0, |reading| interval_load(loss, reading)))
            }
            Line::Profiled {
                account,
                loss_factor,
                profile_load,
                billed_usage,
                profile_usage,
            } => {
                Account::new(account)?;
                let loss = LossFactor::new(loss_factor)?;
                let profile = ProfileLoad::new(profile_load)?;
                let billed = Usage::new(billed_usage)?;
                let usage = ProfileUsage::new(profile_usage)?;
                in_ratio(billed, usage)?;
                Ok(profiled_load(loss, profile, billed, usage))
            }
        }
    }

    /// The cause for which the line, looked at by itself, is to be refused.
    pub fn cause(&self) -> Option<Cause>
        ensures { result ≡ cause_of self.now }
    {
        self.figured().err()
    }

    /// The line's load; 0 if it has a cause to be refused.
    pub fn load(&self) -> Energy
        ensures { result ≡ energy (load_of self.now) }
    {
        Energy(self.figured().unwrap_or(0))
    }
}

/// Interval lines are the first group and profiled lines the second, each weighed by its load.
impl Weighted for Line {
    type Unit = Energy;

    ghost in_first = { interval_weight };

    ghost in_second = { profiled_weight };

    ghost amounts = { energy };

    fn weights(&self) -> (u64, u64) {
        match self {
            Line::Interval { .. } => (self.load().0, 0),
            Line::Profiled { .. } => (0, self.load().0),
        }
    }

    fn amount(n: u64) -> Energy {
        Energy(n)
    }
}
