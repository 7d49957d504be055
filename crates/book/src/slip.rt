//! The slip of an opened day, which has to be closed.

use std::marker::Model;

/// The slip of an opened day in a stage: 1 the day-after estimate, 2 the 60-day reconciliation.
/// It cannot be let go: it is turned at stage 1 and closed at stage 2.
pub struct Slip<const STAGE: u8> {
    day: u32,
    hours: u32,
    settled: u32,
}

impl<const STAGE: u8> Model for Slip<STAGE> {
    ghost use Rattle.book.specs.Slips.{DaySlip, IsSlip};

    ghost Value = { DaySlip };

    ghost use Rattle.book.specs.DaySlips.{slip_of};

    ghost view = { slip_of };

    ghost invariant = { λ s. IsSlip STAGE (slip_of s) };
}

pub(crate) mod opened;
mod stages;
