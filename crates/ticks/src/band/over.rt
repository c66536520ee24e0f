//! How a daily band is made, and its answers: those of the rule below it, but for its own prices.

ghost use Rattle.std.specs.Prelude.{◌≡◌, min, max};
ghost use Rattle.ticks.specs.DailyBands.{band_ticks, band_floor, band_ceiling};
ghost use Rattle.ticks.specs.Evidence.{lawful_band};

use crate::band::DailyBand;
use crate::rule::{Cause, TickRule};

impl<R: TickRule> DailyBand<R> {
    /// The band from `lower` to `upper` over `rule`; both may be any number.
    pub fn new(rule: R, lower: u32, upper: u32) -> DailyBand<R>
        ensures ticks { band_ticks R.TickRule.ticks result ≡ R.TickRule.ticks rule }
        ensures floor { band_floor R.TickRule.floor result ≡ max (R.TickRule.floor rule) lower }
        ensures ceiling { band_ceiling R.TickRule.ceiling result ≡ min (R.TickRule.ceiling rule) upper }
    {
        DailyBand { rule, lower, upper }
    }
}

impl<R: TickRule> TickRule for DailyBand<R> {
    ghost ticks = { band_ticks R.TickRule.ticks };

    ghost floor = { band_floor R.TickRule.floor };

    ghost ceiling = { band_ceiling R.TickRule.ceiling };

    ghost laws = { λ b. lawful_band _ _ _ b.lower b.upper (R.TickRule.laws b.rule) b.fits };

    // The own ceiling is asked after the floor below: where the two cross, F goes before C.
    fn admit(&self, p: u32) -> Result<(), Cause> {
        if p < self.lower {
            return Err(Cause::BelowFloor);
        }
        let inner = self.rule.admit(p);
        if p > self.upper && inner != Err(Cause::BelowFloor) {
            return Err(Cause::AboveCeiling);
        }
        inner
    }

    fn above(&self, p: u32) -> Option<u32> {
        self.rule.above(p)
    }

    fn below(&self, p: u32) -> Option<u32> {
        self.rule.below(p)
    }
}
