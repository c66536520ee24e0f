//! Tick rules: which prices a series may trade at.
//!
//! A rule means a strictly rising list of ticks with a floor and a ceiling, and answers three
//! questions about any price. `Flat`, `Banded` and `DailyBand` are rules, and so is a rule that is
//! lent.
#![tactic(auto)]

mod band;
mod banded;
mod flat;
mod in_row;
mod ladder;
mod lent;
mod meaning;
mod place;
mod row;
mod rule;

pub use band::DailyBand;
pub use banded::{Banded, BandedFault, MAX_ROWS};
pub use flat::{Flat, FlatFault};
pub use meaning::{answers_stand, banded_stands, flat_stands};
pub use row::Row;
pub use rule::{Cause, MAX_TICKS, TickRule};
