//! Energy and power. They are types of their own, so that neither is ever added to the other.

/// Hundredths of a kilowatt-hour.
#[derive(Clone, Copy, PartialEq, Eq, Debug)]
pub struct Energy(pub u64);

/// Hundredths of a kilowatt.
#[derive(Clone, Copy, PartialEq, Eq, Debug)]
pub struct Power(pub u64);
