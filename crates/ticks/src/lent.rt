//! A rule that is lent is a rule with the same meaning.

use crate::rule::{Cause, TickRule};

impl<R: TickRule> TickRule for &R {
    ghost ticks = { λ r. R.TickRule.ticks r.now };

    ghost floor = { λ r. R.TickRule.floor r.now };

    ghost ceiling = { λ r. R.TickRule.ceiling r.now };

    ghost laws = { λ r. R.TickRule.laws r.now };

    fn admit(&self, p: u32) -> Result<(), Cause> {
        (**self).admit(p)
    }

    fn above(&self, p: u32) -> Option<u32> {
        (**self).above(p)
    }

    fn below(&self, p: u32) -> Option<u32> {
        (**self).below(p)
    }
}
