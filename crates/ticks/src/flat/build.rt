//! How a flat rule is made.

ghost use Rattle.std.specs.Prelude.{◌≡◌, ◌+◌, ◌-◌, ◌*◌, IfOk, Ok, Err, MatchResult};
ghost use Rattle.ticks.specs.Ticks.{progression};
ghost use Rattle.ticks.specs.Flats.{flat_check};
ghost use Rattle.ticks.specs.FlatRules.{flat_ticks, flat_floor, flat_ceiling};

use crate::flat::{Flat, FlatFault};
use crate::rule::MAX_TICKS;
use market::limits::MAX_PRICE;

impl Flat {
    /// The rule of `count` ticks from `first`, each `step` above the one before; refused where one
    /// of its conditions is broken.
    pub fn new(first: u32, step: u32, count: u32) -> Result<Flat, FlatFault>
        ensures check { MatchResult result (λ _. flat_check first step count ≡ Ok tt) (λ fault. flat_check first step count ≡ Err fault) }
        ensures meaning { IfOk result (λ f. (flat_ticks f ≡ progression first step count) × (flat_floor f ≡ first) × (flat_ceiling f ≡ first + step * (count - 1))) }
    {
        if first < 1 {
            return Err(FlatFault::FirstIsZero);
        }
        if step < 1 {
            return Err(FlatFault::StepIsZero);
        }
        if count < 1 {
            return Err(FlatFault::CountIsZero);
        }
        if count > MAX_TICKS {
            return Err(FlatFault::TooManyTicks);
        }
        let last = first as u64 + step as u64 * (count - 1) as u64;
        if last > MAX_PRICE as u64 {
            return Err(FlatFault::LastTooHigh);
        }
        Ok(Flat { first, step, count })
    }
}
