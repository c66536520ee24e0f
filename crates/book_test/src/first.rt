//! Calls that several refusals fit: the first in checking order is given.

use crate::calling::{amend, buy, enters, limit, order, priced, refuses_all, shows, start, starts};
use crate::over::{Body, on_each};
use book::Book;
use calls::Call;
use market::{Side, Terms};
use sheets::OrderSheet;
use std::process::Abort;
use std::test::Fail;
use ticks::TickRule;

// Faults of a call to a book that is shut.
fn before_start<R: TickRule, S: OrderSheet>(rt: &impl Abort, book: &mut Book<R, S>) {
    refuses_all(
        rt,
        book,
        &[
            (Call::Enter(limit(Side::Buy, 999, 0)), 5, None),
            (Call::Enter(priced(Side::Offer, 7_000)), 5, None),
            (Call::Withdraw { number: 0 }, 5, None),
            (amend(9, 1_500, 0), 5, None),
            (start(1_500, 999), 7, Some('N')),
            (start(7_000, 999), 7, Some('F')),
        ],
    );
}

// Buy 1 is the only one that its side can hold.
fn while_calling<R: TickRule, S: OrderSheet>(rt: &impl Abort, book: &mut Book<R, S>) {
    refuses_all(
        rt,
        book,
        &[
            (start(1_500, 999), 6, None),
            (amend(2, 999, 0), 8, None),
            (amend(2, 7_000, 1_000_001), 8, None),
            (amend(2, 21_000, 10), 8, None),
            (amend(1, 999, 0), 9, None),
            (amend(1, 1_500, 1_000_001), 9, None),
            (amend(1, 1_500, 11), 10, Some('N')),
            (Call::Enter(limit(Side::Buy, 21_000, 0)), 9, None),
            (Call::Enter(limit(Side::Buy, 7_000, 1_000_001)), 9, None),
            (
                Call::Enter(Terms {
                    quantity: 0,
                    ..priced(Side::Buy, 7_000)
                }),
                9,
                None,
            ),
            (Call::Enter(limit(Side::Buy, 999, 10)), 10, Some('F')),
            (Call::Enter(limit(Side::Buy, 1_500, 10)), 10, Some('N')),
            (Call::Enter(limit(Side::Buy, 21_000, 10)), 10, Some('C')),
            (Call::Enter(priced(Side::Buy, 999)), 10, Some('M')),
            (Call::Enter(buy()), 12, None),
        ],
    );
}

struct SeveralFit;

impl Body for SeveralFit {
    fn run<R: TickRule, S: OrderSheet>(rt: &impl Abort, book: &mut Book<R, S>) {
        before_start(rt, book);
        starts(rt, book);
        enters(rt, book, buy(), 1);
        while_calling(rt, book);
        shows(rt, book, 1, Some(order(1, 1, buy())));
        enters(rt, book, limit(Side::Offer, 7_000, 10), 2);
    }
}

#[test]
fn first_refusal_is_given(rt: HostRuntime) -> Result<(), Fail> {
    on_each::<SeveralFit>(&rt, 1)
}
