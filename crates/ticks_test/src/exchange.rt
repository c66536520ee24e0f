//! An exchange's published tick tables, and its worked conversions of range-limited market orders.
//!
//! A buy's price goes up to the next tick and a sale's down, and a price that is a tick stays. Raw
//! prices are cut to whole ten-thousandths, which leaves them between the same two ticks.

use crate::asked::{C, F, N, TOP, Y, ask, banded, row};
use market::Side;
use std::process::Abort;
use std::test::Fail;
use ticks::{DailyBand, Flat, TickRule};

// The price that an order of the side is converted to.
fn converted<R: TickRule>(rule: &R, side: Side, raw: u32) -> Option<u32> {
    if rule.admit(raw).is_ok() {
        return Some(raw);
    }
    match side {
        Side::Buy => rule.above(raw),
        Side::Offer => rule.below(raw),
    }
}

// Each order with the price that the exchange converts it to.
fn convert<R: TickRule>(rt: &impl Abort, rule: &R, orders: &[(Side, u32, u32)]) {
    for (side, raw, price) in orders {
        assert_eq!(rt; converted(rule, *side, *raw), Some(*price));
    }
}

// Index futures, quoted in whole points; both sessions, and the spread between two months.
#[test]
fn index_futures(rt: HostRuntime) -> Result<(), Fail> {
    let rule = Flat::new(10_000, 10_000, 100_000)?;
    convert(
        &rt,
        &rule,
        &[
            (Side::Buy, 94_580_341, 94_590_000),
            (Side::Offer, 93_659_658, 93_650_000),
            (Side::Buy, 115_170, 120_000),
            (Side::Buy, 94_680_841, 94_690_000),
            (Side::Offer, 93_759_158, 93_750_000),
            (Side::Buy, 115_420, 120_000),
            (Side::Buy, 94_590_000, 94_590_000),
            (Side::Offer, 94_590_000, 94_590_000),
        ],
    );
    ask(
        &rt,
        &rule,
        &[
            (0, F, Some(10_000), None),
            (TOP, C, None, Some(1_000_000_000)),
        ],
    );
    Ok(())
}

// Gold futures, quoted in half points, and the spread between two months.
#[test]
fn gold_futures(rt: HostRuntime) -> Result<(), Fail> {
    let rule = Flat::new(5_000, 5_000, 200_000)?;
    convert(
        &rt,
        &rule,
        &[
            (Side::Buy, 45_395_750, 45_400_000),
            (Side::Offer, 44_979_250, 44_975_000),
            (Side::Buy, 127_875, 130_000),
        ],
    );
    ask(
        &rt,
        &rule,
        &[
            (0, F, Some(5_000), None),
            (TOP, C, None, Some(1_000_000_000)),
        ],
    );
    Ok(())
}

// Index options.
#[test]
fn index_options(rt: HostRuntime) -> Result<(), Fail> {
    let rows = [
        row(1_000, 1_000),
        row(100_000, 5_000),
        row(500_000, 10_000),
        row(5_000_000, 50_000),
        row(10_000_000, 100_000),
    ];
    let rule = banded(&rows, 100_000_000)?;
    convert(
        &rt,
        &rule,
        &[
            (Side::Buy, 608_136, 610_000),
            (Side::Offer, 236_863, 235_000),
            (Side::Buy, 24_088_136, 24_100_000),
            (Side::Offer, 24_111_863, 24_100_000),
            (Side::Buy, 608_336, 610_000),
            (Side::Offer, 236_663, 235_000),
            (Side::Buy, 24_088_336, 24_100_000),
            (Side::Offer, 24_111_663, 24_100_000),
        ],
    );
    ask(
        &rt,
        &rule,
        &[
            (0, F, Some(1_000), None),
            (99_000, Y, Some(100_000), Some(98_000)),
            (100_000, Y, Some(105_000), Some(99_000)),
            (500_000, Y, Some(510_000), Some(495_000)),
            (505_000, N, Some(510_000), Some(500_000)),
            (5_000_000, Y, Some(5_050_000), Some(4_990_000)),
            (10_000_000, Y, Some(10_100_000), Some(9_950_000)),
            (TOP, C, None, Some(100_000_000)),
        ],
    );
    Ok(())
}

// Single-stock futures.
#[test]
fn stock_futures(rt: HostRuntime) -> Result<(), Fail> {
    let rows = [
        row(100, 100),
        row(100_000, 500),
        row(500_000, 1_000),
        row(1_000_000, 5_000),
        row(5_000_000, 10_000),
        row(10_000_000, 50_000),
    ];
    let rule = banded(&rows, 100_000_000)?;
    convert(
        &rt,
        &rule,
        &[
            (Side::Buy, 2_015_050, 2_020_000),
            (Side::Offer, 1_984_950, 1_980_000),
        ],
    );
    ask(
        &rt,
        &rule,
        &[
            (0, F, Some(100), None),
            (100_000, Y, Some(100_500), Some(99_900)),
            (500_000, Y, Some(501_000), Some(499_500)),
            (1_000_000, Y, Some(1_005_000), Some(999_000)),
            (5_000_000, Y, Some(5_010_000), Some(4_995_000)),
            (10_000_000, Y, Some(10_050_000), Some(9_990_000)),
            (TOP, C, None, Some(100_000_000)),
        ],
    );
    Ok(())
}

// The spread between two months of single-stock futures, which steps evenly.
#[test]
fn stock_futures_spread(rt: HostRuntime) -> Result<(), Fail> {
    let spread = Flat::new(100, 100, 1_000_000)?;
    convert(&rt, &spread, &[(Side::Buy, 5_025, 5_100)]);
    ask(
        &rt,
        &spread,
        &[(0, F, Some(100), None), (TOP, C, None, Some(100_000_000))],
    );
    Ok(())
}

// Single-stock options; the day's limits are a band.
#[test]
fn stock_options(rt: HostRuntime) -> Result<(), Fail> {
    let rows = [
        row(100, 100),
        row(50_000, 500),
        row(150_000, 1_000),
        row(500_000, 5_000),
        row(1_500_000, 10_000),
        row(10_000_000, 50_000),
    ];
    let rule = banded(&rows, 100_000_000)?;
    convert(&rt, &rule, &[(Side::Buy, 20_250, 20_300)]);
    ask(
        &rt,
        &rule,
        &[
            (0, F, Some(100), None),
            (50_000, Y, Some(50_500), Some(49_900)),
            (150_000, Y, Some(151_000), Some(149_500)),
            (500_000, Y, Some(505_000), Some(499_000)),
            (1_500_000, Y, Some(1_510_000), Some(1_495_000)),
            (10_000_000, Y, Some(10_050_000), Some(9_990_000)),
            (TOP, C, None, Some(100_000_000)),
        ],
    );
    // limits 0.01 and 27.1: a buy at 28.105 is over the upper limit, which is itself admitted
    let day = DailyBand::new(&rule, 100, 271_000);
    ask(
        &rt,
        &day,
        &[
            (0, F, Some(100), None),
            (100, Y, Some(200), None),
            (271_000, Y, Some(272_000), Some(270_000)),
            (281_050, C, Some(282_000), Some(281_000)),
            (TOP, C, None, Some(100_000_000)),
        ],
    );
    Ok(())
}
