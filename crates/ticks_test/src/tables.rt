//! Worked examples and real tables, in ten-thousandths.

use crate::asked::{C, F, N, TOP, Y, ask, banded, row};
use std::test::Fail;
use ticks::{Banded, DailyBand, Flat, Row, TickRule};

const TWO_ROWS: [Row; 2] = [Row { start: 10, step: 2 }, Row { start: 20, step: 5 }];

#[test]
fn fresh(rt: HostRuntime) {
    let rule = Banded::new();
    ask(
        &rt,
        &rule,
        &[
            (0, F, Some(1), None),
            (1, Y, None, None),
            (2, C, None, Some(1)),
            (TOP, C, None, Some(1)),
        ],
    );
}

#[test]
fn two_rows(rt: HostRuntime) -> Result<(), Fail> {
    let rule = banded(&TWO_ROWS, 30)?;
    ask(
        &rt,
        &rule,
        &[
            (0, F, Some(10), None),
            (9, F, Some(10), None),
            (10, Y, Some(12), None),
            (11, N, Some(12), Some(10)),
            (12, Y, Some(14), Some(10)),
            (18, Y, Some(20), Some(16)),
            (19, N, Some(20), Some(18)),
            (20, Y, Some(25), Some(18)),
            (22, N, Some(25), Some(20)),
            (25, Y, Some(30), Some(20)),
            (29, N, Some(30), Some(25)),
            (30, Y, None, Some(25)),
            (31, C, None, Some(30)),
            (TOP, C, None, Some(30)),
        ],
    );
    Ok(())
}

#[test]
fn flat(rt: HostRuntime) -> Result<(), Fail> {
    let rule = Flat::new(1_000, 1_000, 1_000_000)?;
    ask(
        &rt,
        &rule,
        &[
            (0, F, Some(1_000), None),
            (999, F, Some(1_000), None),
            (1_000, Y, Some(2_000), None),
            (1_001, N, Some(2_000), Some(1_000)),
            (107_000, Y, Some(108_000), Some(106_000)),
            (999_999_000, Y, Some(1_000_000_000), Some(999_998_000)),
            (999_999_999, N, Some(1_000_000_000), Some(999_999_000)),
            (1_000_000_000, Y, None, Some(999_999_000)),
            (1_000_000_001, C, None, Some(1_000_000_000)),
            (TOP, C, None, Some(1_000_000_000)),
        ],
    );
    let one = Flat::new(1_000_000_000, TOP, 1)?;
    ask(
        &rt,
        &one,
        &[
            (0, F, Some(1_000_000_000), None),
            (1_000_000_000, Y, None, None),
            (TOP, C, None, Some(1_000_000_000)),
        ],
    );
    Ok(())
}

#[test]
fn daily_band(rt: HostRuntime) -> Result<(), Fail> {
    let flat = Flat::new(1_000, 1_000, 1_000_000)?;
    let band = DailyBand::new(flat, 100_000, 130_000);
    ask(
        &rt,
        &band,
        &[
            (0, F, Some(1_000), None),
            (99_000, F, Some(100_000), Some(98_000)),
            (99_999, F, Some(100_000), Some(99_000)),
            (100_000, Y, Some(101_000), Some(99_000)),
            (100_500, N, Some(101_000), Some(100_000)),
            (130_000, Y, Some(131_000), Some(129_000)),
            (130_001, C, Some(131_000), Some(130_000)),
            (131_000, C, Some(132_000), Some(130_000)),
            (TOP, C, None, Some(1_000_000_000)),
        ],
    );
    Ok(())
}

// The band's own prices lie outside the ticks: the rule's floor and ceiling stand.
#[test]
fn wide_band(rt: HostRuntime) -> Result<(), Fail> {
    let flat = Flat::new(1_000, 1_000, 1_000_000)?;
    let wide = DailyBand::new(flat, 0, TOP);
    ask(
        &rt,
        &wide,
        &[
            (0, F, Some(1_000), None),
            (1_000_000_000, Y, None, Some(999_999_000)),
            (TOP, C, None, Some(1_000_000_000)),
        ],
    );
    Ok(())
}

// Floor and ceiling cross: nothing is admitted, and F goes before C.
#[test]
fn crossed_band(rt: HostRuntime) -> Result<(), Fail> {
    let flat = Flat::new(1_000, 1_000, 1_000_000)?;
    let crossed = DailyBand::new(flat, 130_000, 100_000);
    ask(
        &rt,
        &crossed,
        &[
            (0, F, Some(1_000), None),
            (100_000, F, Some(101_000), Some(99_000)),
            (115_000, F, Some(116_000), Some(114_000)),
            (130_000, C, Some(131_000), Some(129_000)),
            (TOP, C, None, Some(1_000_000_000)),
        ],
    );
    Ok(())
}

#[test]
fn band_over_band(rt: HostRuntime) -> Result<(), Fail> {
    let rule = banded(&TWO_ROWS, 30)?;
    let inner = DailyBand::new(&rule, 12, 25);
    let outer = DailyBand::new(&inner, 11, 20);
    ask(
        &rt,
        &outer,
        &[
            (0, F, Some(10), None),
            (10, F, Some(12), None),
            (11, F, Some(12), Some(10)),
            (12, Y, Some(14), Some(10)),
            (13, N, Some(14), Some(12)),
            (20, Y, Some(25), Some(18)),
            (25, C, Some(30), Some(20)),
            (30, C, None, Some(25)),
            (TOP, C, None, Some(30)),
        ],
    );
    // the floor below is over the ceiling above: F up to the floor, then C
    let low = DailyBand::new(inner, 0, 11);
    ask(
        &rt,
        &low,
        &[
            (0, F, Some(10), None),
            (11, F, Some(12), Some(10)),
            (12, C, Some(14), Some(10)),
            (TOP, C, None, Some(30)),
        ],
    );
    Ok(())
}

// Thai shares: the table of steps by price, up to 1,000 baht.
#[test]
fn thai_shares(rt: HostRuntime) -> Result<(), Fail> {
    let rows = [
        row(100, 100),
        row(20_000, 200),
        row(50_000, 500),
        row(100_000, 1_000),
        row(250_000, 2_500),
        row(1_000_000, 5_000),
        row(2_000_000, 10_000),
        row(4_000_000, 20_000),
    ];
    let rule = banded(&rows, 10_000_000)?;
    ask(
        &rt,
        &rule,
        &[
            (0, F, Some(100), None),
            (100, Y, Some(200), None),
            (19_900, Y, Some(20_000), Some(19_800)),
            (20_000, Y, Some(20_200), Some(19_900)),
            (20_100, N, Some(20_200), Some(20_000)),
            (50_000, Y, Some(50_500), Some(49_800)),
            (100_000, Y, Some(101_000), Some(99_500)),
            (250_000, Y, Some(252_500), Some(249_000)),
            (251_000, N, Some(252_500), Some(250_000)),
            (1_000_000, Y, Some(1_005_000), Some(997_500)),
            (2_000_000, Y, Some(2_010_000), Some(1_995_000)),
            (4_000_000, Y, Some(4_020_000), Some(3_990_000)),
            (4_010_000, N, Some(4_020_000), Some(4_000_000)),
            (9_980_000, Y, Some(10_000_000), Some(9_960_000)),
            (10_000_000, Y, None, Some(9_980_000)),
            (10_000_001, C, None, Some(10_000_000)),
            (TOP, C, None, Some(10_000_000)),
        ],
    );
    Ok(())
}

// Futures that step evenly by a tenth of a point.
#[test]
fn even_futures(rt: HostRuntime) -> Result<(), Fail> {
    let rule = Flat::new(1_000, 1_000, 200_000)?;
    ask(
        &rt,
        &rule,
        &[
            (0, F, Some(1_000), None),
            (9_001_000, Y, Some(9_002_000), Some(9_000_000)),
            (9_001_500, N, Some(9_002_000), Some(9_001_000)),
            (200_000_000, Y, None, Some(199_999_000)),
            (TOP, C, None, Some(200_000_000)),
        ],
    );
    Ok(())
}
