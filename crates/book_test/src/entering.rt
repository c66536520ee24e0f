//! Orders of each kind, their limits, and numbers that do not stand.

use crate::calling::{
    BAD_PRICES, BAD_QUANTITIES, amend, amends, buy, enters, limit, market, priced, refuses, shows,
    starts, withdraws,
};
use crate::over::{Body, on_each};
use book::Book;
use calls::Call;
use market::Side;
use sheets::OrderSheet;
use std::process::Abort;
use std::test::Fail;
use ticks::TickRule;

// No order enters with one of the bad prices.
fn refuses_prices<R: TickRule, S: OrderSheet>(rt: &impl Abort, book: &mut Book<R, S>) {
    for (price, letter) in BAD_PRICES {
        let (buy, offer) = (limit(Side::Buy, price, 10), limit(Side::Offer, price, 10));
        refuses(rt, book, (Call::Enter(buy), 10, Some(letter)));
        refuses(rt, book, (Call::Enter(offer), 10, Some(letter)));
    }
}

// No market order enters with a price.
fn refuses_priced<R: TickRule, S: OrderSheet>(rt: &impl Abort, book: &mut Book<R, S>) {
    for price in [1, 999, 7_000, 21_000, 4_294_967_295] {
        refuses(
            rt,
            book,
            (Call::Enter(priced(Side::Buy, price)), 10, Some('M')),
        );
        refuses(
            rt,
            book,
            (Call::Enter(priced(Side::Offer, price)), 10, Some('M')),
        );
    }
}

// No order enters with one of the bad quantities.
fn refuses_quantities<R: TickRule, S: OrderSheet>(rt: &impl Abort, book: &mut Book<R, S>) {
    for quantity in BAD_QUANTITIES {
        let terms = limit(Side::Buy, 7_000, quantity);
        refuses(rt, book, (Call::Enter(terms), 9, None));
        refuses(
            rt,
            book,
            (Call::Enter(market(Side::Offer, quantity)), 9, None),
        );
    }
}

// Numbers under which nothing stands.
fn are_unknown<R: TickRule, S: OrderSheet>(
    rt: &impl Abort,
    book: &mut Book<R, S>,
    numbers: &[u32],
) {
    for number in numbers {
        let number = *number;
        shows(rt, book, number, None);
        refuses(rt, book, (Call::Withdraw { number }, 8, None));
        refuses(rt, book, (amend(number, 7_000, 10), 8, None));
        refuses(rt, book, (amend(number, 0, 10), 8, None));
    }
}

struct Enters;

// The numbers go on from 1, and a refused order takes none.
impl Body for Enters {
    fn run<R: TickRule, S: OrderSheet>(rt: &impl Abort, book: &mut Book<R, S>) {
        starts(rt, book);
        refuses_prices(rt, book);
        enters(rt, book, limit(Side::Buy, 1_000, 1), 1);
        refuses_priced(rt, book);
        enters(rt, book, limit(Side::Offer, 20_000, 1_000_000), 2);
        refuses_quantities(rt, book);
        enters(rt, book, market(Side::Buy, 1_000_000), 3);
        enters(rt, book, market(Side::Offer, 1), 4);
        enters(rt, book, limit(Side::Buy, 20_000, 999_999), 5);
        enters(rt, book, limit(Side::Offer, 1_000, 2), 6);
        refuses_prices(rt, book);
        refuses_priced(rt, book);
        refuses_quantities(rt, book);
        enters(rt, book, buy(), 7);
    }
}

struct Withdraws;

// A number that was withdrawn stands no more, and is not given again.
impl Body for Withdraws {
    fn run<R: TickRule, S: OrderSheet>(rt: &impl Abort, book: &mut Book<R, S>) {
        starts(rt, book);
        are_unknown(rt, book, &[0, 1, 2, 4_294_967_295]);
        enters(rt, book, limit(Side::Buy, 7_000, 10), 1);
        enters(rt, book, limit(Side::Offer, 8_000, 25), 2);
        enters(rt, book, market(Side::Buy, 1_000_000), 3);
        are_unknown(rt, book, &[0, 4, 1_000_000, 4_294_967_295]);
        withdraws(rt, book, 2, 25);
        are_unknown(rt, book, &[0, 2, 4]);
        amends(rt, book, 1, limit(Side::Buy, 7_000, 4), 1);
        withdraws(rt, book, 1, 4);
        withdraws(rt, book, 3, 1_000_000);
        are_unknown(rt, book, &[0, 1, 2, 3, 4]);
        enters(rt, book, buy(), 4);
        are_unknown(rt, book, &[1, 2, 3, 5]);
    }
}

// No amendment of limit order 1 or market order 2 to one of the bad quantities.
fn refuses_amended_quantities<R: TickRule, S: OrderSheet>(rt: &impl Abort, book: &mut Book<R, S>) {
    for quantity in BAD_QUANTITIES {
        refuses(rt, book, (amend(1, 7_000, quantity), 9, None));
        refuses(rt, book, (amend(2, 0, quantity), 9, None));
    }
}

// No amendment of limit order 1 to one of the bad prices, or of market order 2 to any but 0.
fn refuses_amended_prices<R: TickRule, S: OrderSheet>(rt: &impl Abort, book: &mut Book<R, S>) {
    for (price, letter) in BAD_PRICES {
        refuses(rt, book, (amend(1, price, 10), 10, Some(letter)));
        refuses(rt, book, (amend(1, price, 5), 10, Some(letter)));
        if price != 0 {
            refuses(rt, book, (amend(2, price, 10), 10, Some('M')));
        }
    }
    refuses(rt, book, (amend(2, 7_000, 10), 10, Some('M')));
}

struct Amends;

// The smallest and the largest price and quantity may be set.
impl Body for Amends {
    fn run<R: TickRule, S: OrderSheet>(rt: &impl Abort, book: &mut Book<R, S>) {
        starts(rt, book);
        enters(rt, book, limit(Side::Offer, 7_000, 10), 1);
        enters(rt, book, market(Side::Offer, 10), 2);
        refuses_amended_quantities(rt, book);
        refuses_amended_prices(rt, book);
        amends(rt, book, 1, limit(Side::Offer, 1_000, 1), 3);
        amends(rt, book, 1, limit(Side::Offer, 20_000, 1_000_000), 4);
        amends(rt, book, 2, market(Side::Offer, 1_000_000), 5);
        amends(rt, book, 2, market(Side::Offer, 1), 5);
        refuses_amended_quantities(rt, book);
        refuses_amended_prices(rt, book);
        enters(rt, book, buy(), 6);
    }
}

#[test]
fn enter_numbers_orders(rt: HostRuntime) -> Result<(), Fail> {
    on_each::<Enters>(&rt, 4)
}

#[test]
fn withdraw_answers_what_stood(rt: HostRuntime) -> Result<(), Fail> {
    on_each::<Withdraws>(&rt, 4)
}

#[test]
fn amend_sets_price_and_quantity(rt: HostRuntime) -> Result<(), Fail> {
    on_each::<Amends>(&rt, 4)
}
