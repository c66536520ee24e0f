//! A book that is shut, and its start.

use crate::calling::{
    BAD_PRICES, amend, answers, buy, enters, limit, refuses, refuses_all, shows, start, starts,
};
use crate::over::{Body, on_each};
use book::Book;
use calls::{Answer, Call};
use market::Side;
use sheets::OrderSheet;
use std::process::Abort;
use std::test::Fail;
use ticks::TickRule;

// Every call but start, with faults of its own and without.
fn is_shut<R: TickRule, S: OrderSheet>(rt: &impl Abort, book: &mut Book<R, S>) {
    refuses_all(
        rt,
        book,
        &[
            (Call::Enter(buy()), 5, None),
            (Call::Enter(limit(Side::Offer, 1_500, 0)), 5, None),
            (Call::Withdraw { number: 1 }, 5, None),
            (amend(1, 7_000, 10), 5, None),
            (amend(0, 0, 0), 5, None),
            (Call::Show { number: 0 }, 5, None),
            (Call::Show { number: 1 }, 5, None),
        ],
    );
}

// Each price as the prior price, and as the last sale after a prior price that is admitted.
fn refuses_references<R: TickRule, S: OrderSheet>(rt: &impl Abort, book: &mut Book<R, S>) {
    for (price, letter) in BAD_PRICES {
        refuses(rt, book, (start(price, 0), 7, Some(letter)));
        refuses(rt, book, (start(price, 7_000), 7, Some(letter)));
        refuses(rt, book, (start(price, price), 7, Some(letter)));
        if price != 0 {
            refuses(rt, book, (start(7_000, price), 7, Some(letter)));
        }
    }
}

// Where both prices are bad the letter is the prior price's.
fn refuses_both<R: TickRule, S: OrderSheet>(rt: &impl Abort, book: &mut Book<R, S>) {
    refuses_all(
        rt,
        book,
        &[
            (start(999, 21_000), 7, Some('F')),
            (start(999, 1_500), 7, Some('F')),
            (start(21_000, 1_500), 7, Some('C')),
            (start(21_000, 999), 7, Some('C')),
            (start(1_500, 999), 7, Some('N')),
            (start(1_500, 21_000), 7, Some('N')),
        ],
    );
}

// A start while the book is calling, whatever its prices.
fn is_calling<R: TickRule, S: OrderSheet>(rt: &impl Abort, book: &mut Book<R, S>) {
    refuses_all(
        rt,
        book,
        &[
            (start(7_000, 0), 6, None),
            (start(8_000, 9_000), 6, None),
            (start(0, 0), 6, None),
            (start(999, 1_500), 6, None),
            (start(7_000, 21_000), 6, None),
        ],
    );
}

struct Shut;

impl Body for Shut {
    fn run<R: TickRule, S: OrderSheet>(rt: &impl Abort, book: &mut Book<R, S>) {
        is_shut(rt, book);
        refuses_references(rt, book);
        refuses_both(rt, book);
        is_shut(rt, book);
        starts(rt, book);
        is_calling(rt, book);
        shows(rt, book, 1, None);
        enters(rt, book, buy(), 1);
        is_calling(rt, book);
        enters(rt, book, buy(), 2);
    }
}

struct LastSale;

// The first and the last tick are references too.
impl Body for LastSale {
    fn run<R: TickRule, S: OrderSheet>(rt: &impl Abort, book: &mut Book<R, S>) {
        answers(rt, book, start(20_000, 1_000), Answer::Started);
        is_calling(rt, book);
        enters(rt, book, buy(), 1);
    }
}

#[test]
fn start_opens(rt: HostRuntime) -> Result<(), Fail> {
    on_each::<Shut>(&rt, 2)?;
    on_each::<LastSale>(&rt, 2)
}
