//! What a banded load is refused for.

ghost use Rattle.std.specs.Prelude.{◌≡◌};
ghost use Rattle.ticks.specs.Rows.{banded_number};

/// Which condition a banded load breaks, the first in this order; a row goes by its place from 0.
#[derive(Clone, Copy, PartialEq, Eq, Debug)]
pub enum BandedFault {
    /// There is no row.
    NoRows,
    /// There are more rows than a table holds, sixteen.
    TooManyRows,
    /// The row's start is not greater than the start before it; the first row's start is 0.
    StartNotRising(usize),
    /// The row's step is 0.
    StepIsZero(usize),
    /// The end is under the last start.
    EndBelowStart,
    /// The end is over 1,000,000,000.
    EndTooHigh,
    /// The distance from the row's start to the next start, or to the end, is no multiple of its
    /// step.
    UnevenDistance(usize),
    /// There are more than 1,000,000 ticks.
    TooManyTicks,
}

impl BandedFault {
    /// The number that a listing prints for it, whatever the condition.
    pub fn number(&self) -> u8
        ensures { result ≡ banded_number self.now }
    {
        16
    }
}
