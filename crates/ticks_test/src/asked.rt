//! A table of questions, asked of any rule.

use std::process::Abort;
use ticks::{Banded, BandedFault, Cause, Row, TickRule};

// A price with what admit, above and below answer there.
pub(crate) type Asked = (u32, Result<(), Cause>, Option<u32>, Option<u32>);

pub(crate) const F: Result<(), Cause> = Err(Cause::BelowFloor);

pub(crate) const C: Result<(), Cause> = Err(Cause::AboveCeiling);

pub(crate) const N: Result<(), Cause> = Err(Cause::OffTick);

pub(crate) const Y: Result<(), Cause> = Ok(());

// The largest price that can be asked.
pub(crate) const TOP: u32 = 4_294_967_295;

// Asks every question of the table.
pub(crate) fn ask<R: TickRule>(rt: &impl Abort, rule: &R, table: &[Asked]) {
    for asked in table {
        let p = asked.0;
        assert_eq!(rt; (p, rule.admit(p), rule.above(p), rule.below(p)), *asked);
    }
}

// A row of a banded table.
pub(crate) fn row(start: u32, step: u32) -> Row {
    Row { start, step }
}

// A banded rule with the table of `rows` and `end`.
pub(crate) fn banded(rows: &[Row], end: u32) -> Result<Banded, BandedFault> {
    let mut rule = Banded::new();
    rule.load(rows, end)?;
    Ok(rule)
}
