// The last line of the listing.
ghost use Rattle.std.specs.Prelude.{Some};
ghost use Rattle.opening_run.specs.Listing.{closing};

use opening::{At, Counts, Report};
use std::fmt;

/// How a run went, as the last line says it.
#[derive(Clone, Copy)]
pub struct Closing(pub Report);

impl fmt::Display for Closing {
    ghost output = { λ c. Some (closing c.0) };

    fn fmt<W: fmt::Write>(&self, f: &mut fmt::Formatter<W>) -> fmt::Result {
        let Report { counts, fault } = self.0;
        match fault {
            None => {
                let Counts { accepted, refused } = counts;
                write!(f, "end {accepted} {refused}")
            }
            Some(At { place, fault }) => {
                let number = fault.number();
                write!(f, "fault {number} at {place}")
            }
        }
    }
}
