//! The flat rule: one step from the first tick to the last.

mod asked;
mod build;

ghost use Rattle.std.specs.Prelude.{◌≡◌};
ghost use Rattle.ticks.specs.Flats.{Sound, flat_number};

/// `count` ticks from `first`, each `step` above the one before; floor and ceiling are the first
/// and the last tick.
#[derive(Clone, Copy)]
pub struct Flat {
    first: u32,
    step: u32,
    count: u32,
    ghost sound: { Sound first step count },
}

/// Which condition a flat rule breaks, the first in this order.
#[derive(Clone, Copy, PartialEq, Eq, Debug)]
pub enum FlatFault {
    /// The first tick is 0.
    FirstIsZero,
    /// The step is 0.
    StepIsZero,
    /// The count is 0.
    CountIsZero,
    /// The count is over 1,000,000.
    TooManyTicks,
    /// The last tick is over 1,000,000,000.
    LastTooHigh,
}

impl FlatFault {
    /// The number that a listing prints for it, whatever the condition.
    pub fn number(&self) -> u8
        ensures { result ≡ flat_number self.now }
    {
        15
    }
}
