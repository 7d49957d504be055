//! The range of each figure of a line.
ghost use Rattle.std.specs.Prelude.{◌≡◌, true};
ghost use Rattle.rules.specs.Ranges.{between, is_account, ratio};

use refusals::Cause;

/// The reading that stands for one that is missing.
// Figures come in as plain numbers, and those out of range are refused: so this is a number too.
pub const MISSING: u32 = 4_294_967_295;

/// A figure from LOW to HIGH.
#[derive(Clone, Copy)]
pub(crate) struct Within<const LOW: u32, const HIGH: u32> {
    pub(crate) value: u32,
    ghost ok: { between LOW HIGH value ≡ true },
}

pub(crate) type Account = Within<1, 999_999_999>;

pub(crate) type LossFactor = Within<10_000, 20_000>;
/// A billed usage, a highest demand, or a reading that is not missing.
pub(crate) type Usage = Within<0, 100_000_000>;

pub(crate) type ProfileLoad = Within<0, 1_000_000>;

pub(crate) type ProfileUsage = Within<1, 2_000_000_000>;

pub(crate) type Coincidence = Within<0, 10_000>;

impl<const LOW: u32, const HIGH: u32> Within<LOW, HIGH> {
    ghost use Rattle.rules.specs.Within.{in_bounds, number_in};

    pub(crate) fn new(n: u32) -> Result<Self, Cause>
        ensures { number_in result ≡ in_bounds LOW HIGH n }
    {
        if (LOW..=HIGH).contains(&n) {
            Ok(Within { value: n })
        } else {
            Err(Cause::OutOfRange)
        }
    }

    /// The figure, wide enough for products.
    pub(crate) fn wide(self) -> u64
        ensures { result ≡ self.entry.value }
    {
        u64::from(self.value)
    }
}

impl Usage {
    ghost use Rattle.rules.specs.Within.{read, reading_in};

    /// The reading, none for one that is missing.
    pub(crate) fn read(n: u32) -> Result<Option<Usage>, Cause>
        ensures { reading_in result ≡ read n }
    {
        if n == MISSING {
            Ok(None)
        } else {
            Usage::new(n).map(Some)
        }
    }
}

/// Whether n is the number of an account.
pub fn is_account(n: u32) -> bool
    ensures { result ≡ is_account n }
{
    Account::new(n).is_ok()
}

/// A billed usage may be at most 100 times the profile usage.
pub(crate) fn in_ratio(billed: Usage, usage: ProfileUsage) -> Result<(), Cause>
    ensures { result ≡ ratio billed.value usage.value }
{
    if billed.wide() <= 100 * usage.wide() {
        Ok(())
    } else {
        Err(Cause::UsageTooHigh)
    }
}
