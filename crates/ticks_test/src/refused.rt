//! Every condition of 15 and 16 broken, one at a time, and the letters of the causes.

use crate::asked::{C, F, N, TOP, Y, ask, banded, row};
use std::process::Abort;
use std::test::Fail;
use ticks::{BandedFault, Cause, Flat, FlatFault, Row, TickRule};

#[test]
fn flat_refusals(rt: HostRuntime) {
    let table = [
        (0, 1_000, 1_000, Some(FlatFault::FirstIsZero)),
        (1_000, 0, 1_000, Some(FlatFault::StepIsZero)),
        (1_000, 1_000, 0, Some(FlatFault::CountIsZero)),
        (1, 1, 1_000_001, Some(FlatFault::TooManyTicks)),
        (1_001, 1_000, 1_000_000, Some(FlatFault::LastTooHigh)),
        (TOP, TOP, 1_000_000, Some(FlatFault::LastTooHigh)),
        (1, 1, 1, None),
        (1, 1, 1_000_000, None),
        (1_000, 1_000, 1_000_000, None),
        (1_000_000_000, TOP, 1, None),
    ];
    for (first, step, count, fault) in table {
        assert_eq!(rt; Flat::new(first, step, count).err(), fault);
    }
    assert_eq!(rt; FlatFault::LastTooHigh.number(), 15);
}

const SINGLE: Row = Row { start: 1, step: 1 };

// Sixteen rows and one more, each with one tick.
fn many_rows() -> [Row; 17] {
    std::array::from_fn(|i| row(i as u32 + 1, 1))
}

// That the load is refused for `fault`, and that the rule with the ticks 10, 12 .. 20 stays.
fn refused(rt: &impl Abort, rows: &[Row], end: u32, fault: BandedFault) -> Result<(), Fail> {
    let mut rule = banded(&[row(10, 2)], 20)?;
    assert_eq!(rt; rule.load(rows, end), Err(fault));
    assert_eq!(rt; fault.number(), 16);
    ask(
        rt,
        &rule,
        &[
            (0, F, Some(10), None),
            (10, Y, Some(12), None),
            (15, N, Some(16), Some(14)),
            (20, Y, None, Some(18)),
            (TOP, C, None, Some(20)),
        ],
    );
    Ok(())
}

#[test]
fn banded_refusals(rt: HostRuntime) -> Result<(), Fail> {
    let rows = [row(10, 2), row(20, 5)];
    let zero = [row(0, 1), row(20, 5)];
    let level = [row(20, 2), row(20, 5)];
    let falls = [row(22, 2), row(20, 5)];
    let still = [row(10, 2), row(20, 0)];
    let uneven = [row(10, 3), row(20, 5)];
    refused(&rt, &[], 30, BandedFault::NoRows)?;
    refused(&rt, &many_rows(), 17, BandedFault::TooManyRows)?;
    refused(&rt, &zero, 30, BandedFault::StartNotRising(0))?;
    refused(&rt, &level, 30, BandedFault::StartNotRising(1))?;
    refused(&rt, &falls, 30, BandedFault::StartNotRising(1))?;
    refused(&rt, &still, 30, BandedFault::StepIsZero(1))?;
    refused(&rt, &rows, 19, BandedFault::EndBelowStart)?;
    refused(&rt, &rows, 1_000_000_005, BandedFault::EndTooHigh)?;
    refused(&rt, &rows, TOP, BandedFault::EndTooHigh)?;
    refused(&rt, &uneven, 30, BandedFault::UnevenDistance(0))?;
    refused(&rt, &rows, 31, BandedFault::UnevenDistance(1))?;
    refused(&rt, &[SINGLE], 1_000_001, BandedFault::TooManyTicks)?;
    refused(&rt, &rows, 1_000_000_000, BandedFault::TooManyTicks)
}

#[test]
fn banded_limits(rt: HostRuntime) -> Result<(), Fail> {
    let mut rule = banded(&[SINGLE], 1_000_000)?;
    assert_eq!(rt; rule.above(999_999), Some(1_000_000));
    rule.load(&[row(1_000_000_000, TOP)], 1_000_000_000)?;
    assert_eq!(rt; rule.above(0), Some(1_000_000_000));
    rule.load(&many_rows()[0..16], 16)?;
    assert_eq!(rt; rule.below(TOP), Some(16));
    Ok(())
}

#[test]
fn letters(rt: HostRuntime) {
    assert_eq!(rt; Cause::BelowFloor.letter(), 'F');
    assert_eq!(rt; Cause::AboveCeiling.letter(), 'C');
    assert_eq!(rt; Cause::OffTick.letter(), 'N');
}
