//! Where a price lies among ticks that go by rows, and what is answered there.

ghost use Rattle.std.specs.Prelude.{◌≡◌};
ghost use Rattle.ticks.specs.Places.{admit_at, above_at, at_most_at};

use crate::in_row::InRow;
use crate::rule::Cause;

#[derive(Clone, Copy)]
pub(crate) enum Place {
    // under the first tick
    Before { first: u32 },
    // from the first tick to under the last
    Within(InRow),
    // at the last tick or over it
    Past { last: u32, price: u32 },
}

impl Place {
    // What admit answers at the price.
    pub(crate) fn admit(&self) -> Result<(), Cause>
        ensures { result ≡ admit_at self.now }
    {
        match self {
            Place::Before { .. } => Err(Cause::BelowFloor),
            Place::Within(at) if at.on_step() => Ok(()),
            Place::Within(_) => Err(Cause::OffTick),
            Place::Past { last, price } if price == last => Ok(()),
            Place::Past { .. } => Err(Cause::AboveCeiling),
        }
    }

    // The smallest tick greater than the price.
    pub(crate) fn above(&self) -> Option<u32>
        ensures { result ≡ above_at self.now }
    {
        match self {
            Place::Before { first } => Some(*first),
            Place::Within(at) => Some(at.step_above()),
            Place::Past { .. } => None,
        }
    }

    // The greatest tick at most at the price.
    pub(crate) fn at_most(&self) -> Option<u32>
        ensures { result ≡ at_most_at self.now }
    {
        match self {
            Place::Before { .. } => None,
            Place::Within(at) => Some(at.step_at_most()),
            Place::Past { last, .. } => Some(*last),
        }
    }
}
