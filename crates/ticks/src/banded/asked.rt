//! The banded rule's answers, in the number of rows.

ghost use Rattle.ticks.specs.BandedRules.{banded_rows, banded_ticks, banded_floor, banded_ceiling};
ghost use Rattle.ticks.specs.Evidence.{lawful_banded};
ghost use Rattle.ticks.specs.Places.{Placed};

use crate::banded::table::Banded;
use crate::ladder::Table;
use crate::place::Place;
use crate::rule::{Cause, TickRule};

impl Banded {
    // Where `p` lies among the ticks.
    fn place(&self, p: u32) -> Place
        ensures { Placed (banded_ticks self.now) (banded_floor self.now) (banded_ceiling self.now) p result }
    {
        let table = Table {
            rows: &self.rows[..self.used],
            end: self.end,
        };
        table.place(p)
    }
}

// As in the flat rule; see there why not once for both.
impl TickRule for Banded {
    ghost ticks = { banded_ticks };

    ghost floor = { banded_floor };

    ghost ceiling = { banded_ceiling };

    ghost laws = { λ b. lawful_banded (banded_rows b) b.end b.sound };

    fn admit(&self, p: u32) -> Result<(), Cause> {
        self.place(p).admit()
    }

    fn above(&self, p: u32) -> Option<u32> {
        self.place(p).above()
    }

    fn below(&self, p: u32) -> Option<u32> {
        p.checked_sub(1).and_then(|q| self.place(q).at_most())
    }
}
