//! The flat rule's answers, in constant time.

ghost use Rattle.ticks.specs.Evidence.{lawful_flat};
ghost use Rattle.ticks.specs.FlatRules.{flat_ticks, flat_floor, flat_ceiling};
ghost use Rattle.ticks.specs.Places.{Placed};

use crate::flat::Flat;
use crate::ladder::Table;
use crate::place::Place;
use crate::row::Row;
use crate::rule::{Cause, TickRule};

impl Flat {
    // Where `p` lies among the ticks.
    fn place(&self, p: u32) -> Place
        ensures { Placed (flat_ticks self.now) (flat_floor self.now) (flat_ceiling self.now) p result }
    {
        let last = self.first + self.step * (self.count - 1);
        let row = Row {
            start: self.first,
            step: self.step,
        };
        let table = Table {
            rows: &[row],
            end: last,
        };
        table.place(p)
    }
}

// The three answers read as those of a banded rule: one impl for both would overlap with those for
// `DailyBand` and `&R`, which is refused.
impl TickRule for Flat {
    ghost ticks = { flat_ticks };

    ghost floor = { flat_floor };

    ghost ceiling = { flat_ceiling };

    ghost laws = { λ f. lawful_flat f.first f.step f.count f.sound };

    fn admit(&self, p: u32) -> Result<(), Cause> {
        self.place(p).admit()
    }

    fn above(&self, p: u32) -> Option<u32> {
        self.place(p).above()
    }

    fn below(&self, p: u32) -> Option<u32> {
        p.checked_sub(1).and_then(|q| self.place(q).at_most())
    }
}
