//! A price in a row of steps.

ghost use Rattle.std.specs.Prelude.{◌≡◌, ◌≤◌};
ghost use Rattle.ticks.specs.Steps.{step_above, step_at_most, on_step};

use crate::row::Row;

// A price from a row's start on, with a step above it that is still a price.
#[derive(Clone, Copy)]
pub(crate) struct InRow {
    pub(crate) row: Row,
    pub(crate) price: u32,
    ghost positive: { 1 ≤ row.step },
    ghost from_start: { row.start ≤ price },
    ghost room: { step_above row price ≤ 1000000000 },
}

impl InRow {
    // Whether the price is a whole number of steps from the start.
    pub(crate) fn on_step(&self) -> bool
        ensures { result ≡ on_step self.now.row self.now.price }
    {
        (self.price - self.row.start) % self.row.step == 0
    }

    // The next whole number of steps above the price.
    pub(crate) fn step_above(&self) -> u32
        ensures { result ≡ step_above self.now.row self.now.price }
    {
        self.row.start + self.row.step * ((self.price - self.row.start) / self.row.step + 1)
    }

    // The last whole number of steps at most at the price.
    pub(crate) fn step_at_most(&self) -> u32
        ensures { result ≡ step_at_most self.now.row self.now.price }
    {
        self.row.start + self.row.step * ((self.price - self.row.start) / self.row.step)
    }
}
