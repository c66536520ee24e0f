//! Sides that are full.

use crate::calling::{
    amend, amends, buy, enters, limit, market, order, refuses_all, shows, starts, withdraws,
};
use crate::over::{Body, on_each};
use book::Book;
use calls::Call;
use market::Side;
use sheets::OrderSheet;
use std::process::Abort;
use std::test::Fail;
use ticks::TickRule;

// No order enters on the side.
fn refuses_side<R: TickRule, S: OrderSheet>(rt: &impl Abort, book: &mut Book<R, S>, side: Side) {
    refuses_all(
        rt,
        book,
        &[
            (Call::Enter(limit(side, 7_000, 10)), 12, None),
            (Call::Enter(limit(side, 1_000, 1)), 12, None),
            (Call::Enter(market(side, 1_000_000)), 12, None),
        ],
    );
}

struct TwoPlaces;

// A full side takes amendments and no order, the other side both; a withdrawal sets a place free.
impl Body for TwoPlaces {
    fn run<R: TickRule, S: OrderSheet>(rt: &impl Abort, book: &mut Book<R, S>) {
        starts(rt, book);
        enters(rt, book, limit(Side::Buy, 7_000, 10), 1);
        enters(rt, book, market(Side::Buy, 10), 2);
        refuses_side(rt, book, Side::Buy);
        enters(rt, book, limit(Side::Offer, 7_000, 10), 3);
        enters(rt, book, market(Side::Offer, 10), 4);
        refuses_side(rt, book, Side::Buy);
        refuses_side(rt, book, Side::Offer);
        amends(rt, book, 1, limit(Side::Buy, 9_000, 10), 5);
        amends(rt, book, 4, market(Side::Offer, 12), 6);
        amends(rt, book, 3, limit(Side::Offer, 7_000, 2), 3);
        refuses_side(rt, book, Side::Buy);
        refuses_side(rt, book, Side::Offer);
        withdraws(rt, book, 1, 10);
        refuses_side(rt, book, Side::Offer);
        enters(rt, book, limit(Side::Buy, 6_000, 10), 7);
        refuses_side(rt, book, Side::Buy);
        shows(rt, book, 2, Some(order(2, 2, market(Side::Buy, 10))));
        withdraws(rt, book, 4, 12);
        refuses_side(rt, book, Side::Buy);
        enters(rt, book, limit(Side::Offer, 7_000, 1), 8);
        refuses_side(rt, book, Side::Offer);
    }
}

struct NoPlace;

// Where a side holds no order, none enters and none stands; other faults go first.
impl Body for NoPlace {
    fn run<R: TickRule, S: OrderSheet>(rt: &impl Abort, book: &mut Book<R, S>) {
        starts(rt, book);
        refuses_side(rt, book, Side::Buy);
        refuses_side(rt, book, Side::Offer);
        refuses_all(
            rt,
            book,
            &[
                (Call::Enter(limit(Side::Buy, 7_000, 0)), 9, None),
                (Call::Enter(limit(Side::Offer, 1_500, 10)), 10, Some('N')),
                (Call::Withdraw { number: 1 }, 8, None),
                (amend(1, 7_000, 10), 8, None),
                (Call::Enter(buy()), 12, None),
            ],
        );
        shows(rt, book, 0, None);
        shows(rt, book, 1, None);
    }
}

#[test]
fn full_side_takes_amendments_alone(rt: HostRuntime) -> Result<(), Fail> {
    on_each::<TwoPlaces>(&rt, 2)?;
    on_each::<NoPlace>(&rt, 0)
}
