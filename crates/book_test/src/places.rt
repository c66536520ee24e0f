//! Which amendments take a new rank, and which keep the old one.

use crate::calling::{amends, enters, limit, market, order, shows, starts};
use crate::over::{Body, on_each};
use book::Book;
use market::Side;
use sheets::OrderSheet;
use std::process::Abort;
use std::test::Fail;
use ticks::TickRule;

struct TwoBuys;

// Two buys at one price: a raise and a new price take the next rank, a cut and no change keep it.
impl Body for TwoBuys {
    fn run<R: TickRule, S: OrderSheet>(rt: &impl Abort, book: &mut Book<R, S>) {
        starts(rt, book);
        enters(rt, book, limit(Side::Buy, 7_000, 10), 1);
        enters(rt, book, limit(Side::Buy, 7_000, 10), 2);
        amends(rt, book, 1, limit(Side::Buy, 7_000, 11), 3);
        amends(rt, book, 2, limit(Side::Buy, 7_000, 4), 2);
        amends(rt, book, 2, limit(Side::Buy, 8_000, 4), 4);
        amends(rt, book, 2, limit(Side::Buy, 7_000, 4), 5);
        shows(rt, book, 1, Some(order(1, 3, limit(Side::Buy, 7_000, 11))));
        amends(rt, book, 1, limit(Side::Buy, 7_000, 11), 3);
        amends(rt, book, 1, limit(Side::Buy, 7_000, 10), 3);
        amends(rt, book, 1, limit(Side::Buy, 6_000, 1), 6);
        amends(rt, book, 1, limit(Side::Buy, 6_000, 2), 7);
        amends(rt, book, 1, limit(Side::Buy, 6_000, 1), 7);
        shows(rt, book, 2, Some(order(2, 5, limit(Side::Buy, 7_000, 4))));
        enters(rt, book, limit(Side::Buy, 7_000, 10), 8);
    }
}

struct MarketOffer;

// A market order loses its place by a raise alone, and the number is passed over by new orders.
impl Body for MarketOffer {
    fn run<R: TickRule, S: OrderSheet>(rt: &impl Abort, book: &mut Book<R, S>) {
        starts(rt, book);
        enters(rt, book, market(Side::Offer, 10), 1);
        amends(rt, book, 1, market(Side::Offer, 10), 1);
        amends(rt, book, 1, market(Side::Offer, 3), 1);
        amends(rt, book, 1, market(Side::Offer, 4), 2);
        shows(rt, book, 2, None);
        enters(rt, book, market(Side::Offer, 10), 3);
        amends(rt, book, 1, market(Side::Offer, 1), 2);
        amends(rt, book, 3, market(Side::Offer, 11), 4);
        shows(rt, book, 1, Some(order(1, 2, market(Side::Offer, 1))));
        enters(rt, book, limit(Side::Buy, 7_000, 10), 5);
    }
}

#[test]
fn raise_loses_its_place_and_cut_keeps_it(rt: HostRuntime) -> Result<(), Fail> {
    on_each::<TwoBuys>(&rt, 3)?;
    on_each::<MarketOffer>(&rt, 3)
}
