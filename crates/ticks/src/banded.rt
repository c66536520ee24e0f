//! The banded rule: rows of start and step up to an end, loaded in place.

mod asked;
mod check;
mod fault;
mod load;
mod table;

pub use fault::BandedFault;
pub use table::{Banded, MAX_ROWS};
