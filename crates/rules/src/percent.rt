//! A percentage.
ghost use Rattle.std.specs.Prelude.{◌≤◌};

/// A percentage, 0 to 100. As an arrangement, the interval part is so much of the unaccounted energy.
#[derive(Clone, Copy)]
pub struct Percent {
    pub value: u32,
    ghost ok: { value ≤ 100 },
}
