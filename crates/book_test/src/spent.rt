//! Books whose 1,000,000 ranks are used.

use crate::calling::{
    amend, amends, answers, buy, enters, limit, market, refuses_all, shows, start, starts,
    withdraws,
};
use crate::over::{Body, on_each};
use book::Book;
use calls::{Answer, Call};
use market::Side;
use sheets::OrderSheet;
use std::process::Abort;
use std::test::Fail;
use ticks::TickRule;

// That many amendments of buy 1 at 7,000, each with a new price and so with a new rank.
fn spends<R: TickRule, S: OrderSheet>(rt: &impl Abort, book: &mut Book<R, S>, ranks: u32) {
    for i in 0..ranks {
        let price = if i % 2 == 0 { 8_000 } else { 7_000 };
        answers(rt, book, amend(1, price, 10), Answer::Amended(1));
    }
}

// No call that needs a rank is accepted; buy 1 stands at 8,000 with a quantity of 10, and is the only
// one that its side can hold.
fn refuses_ranks<R: TickRule, S: OrderSheet>(rt: &impl Abort, book: &mut Book<R, S>) {
    refuses_all(
        rt,
        book,
        &[
            (Call::Enter(buy()), 11, None),
            (Call::Enter(market(Side::Buy, 10)), 11, None),
            (Call::Enter(limit(Side::Offer, 7_000, 10)), 11, None),
            (Call::Enter(market(Side::Offer, 1)), 11, None),
            (amend(1, 7_000, 10), 11, None),
            (amend(1, 7_000, 1), 11, None),
            (amend(1, 8_000, 11), 11, None),
            (amend(1, 8_000, 1_000_000), 11, None),
        ],
    );
}

// Faults that are judged before the rank, in the same state.
fn refuses_faults<R: TickRule, S: OrderSheet>(rt: &impl Abort, book: &mut Book<R, S>) {
    refuses_all(
        rt,
        book,
        &[
            (start(0, 0), 6, None),
            (Call::Withdraw { number: 2 }, 8, None),
            (amend(2, 7_000, 10), 8, None),
            (Call::Enter(limit(Side::Buy, 7_000, 0)), 9, None),
            (Call::Enter(market(Side::Offer, 1_000_001)), 9, None),
            (amend(1, 7_000, 1_000_001), 9, None),
            (Call::Enter(limit(Side::Buy, 999, 10)), 10, Some('F')),
            (Call::Enter(limit(Side::Offer, 1_500, 10)), 10, Some('N')),
            (amend(1, 21_000, 11), 10, Some('C')),
        ],
    );
}

struct ByAmendments;

// One order and 999,999 amendments: what needs no rank is accepted still.
impl Body for ByAmendments {
    fn run<R: TickRule, S: OrderSheet>(rt: &impl Abort, book: &mut Book<R, S>) {
        starts(rt, book);
        enters(rt, book, buy(), 1);
        spends(rt, book, 999_999);
        amends(rt, book, 1, limit(Side::Buy, 8_000, 10), 1_000_000);
        refuses_ranks(rt, book);
        refuses_faults(rt, book);
        amends(rt, book, 1, limit(Side::Buy, 8_000, 10), 1_000_000);
        amends(rt, book, 1, limit(Side::Buy, 8_000, 4), 1_000_000);
        withdraws(rt, book, 1, 4);
        let refused = (Call::Enter(buy()), 11, None);
        refuses_all(rt, book, &[refused, (amend(1, 7_000, 10), 8, None)]);
        shows(rt, book, 1_000_000, None);
    }
}

struct ByAnOrder;

// The last rank is an order's number.
impl Body for ByAnOrder {
    fn run<R: TickRule, S: OrderSheet>(rt: &impl Abort, book: &mut Book<R, S>) {
        starts(rt, book);
        enters(rt, book, buy(), 1);
        spends(rt, book, 999_998);
        amends(rt, book, 1, limit(Side::Buy, 7_000, 10), 999_999);
        enters(rt, book, market(Side::Offer, 10), 1_000_000);
        let refused = (Call::Enter(market(Side::Offer, 10)), 11, None);
        refuses_all(rt, book, &[refused, (amend(1_000_000, 0, 11), 11, None)]);
        amends(rt, book, 1_000_000, market(Side::Offer, 9), 1_000_000);
        amends(rt, book, 1, limit(Side::Buy, 7_000, 9), 999_999);
        withdraws(rt, book, 1_000_000, 9);
    }
}

#[test]
fn spent_ranks_refuse_what_needs_one(rt: HostRuntime) -> Result<(), Fail> {
    on_each::<ByAmendments>(&rt, 1)?;
    on_each::<ByAnOrder>(&rt, 1)
}
