//! One body over every book: both sheets, and three rules with the same ticks from floor to ceiling,
//! 1,000, 2,000 .. 20,000.

use book::Book;
use market::{Kind, Order, Side};
use sheets::{ArrivalSheet, OrderSheet, PrioritySheet};
use std::process::Abort;
use std::test::Fail;
use ticks::{Banded, DailyBand, Flat, Row, TickRule};

// What is tried on a book that is shut.
pub(crate) trait Body {
    fn run<R: TickRule, S: OrderSheet>(rt: &impl Abort, book: &mut Book<R, S>);
}

// The most orders that a side can hold here.
const ROOM: usize = 6;

// The rows of an arrival sheet with that room.
const BOTH: usize = 2 * ROOM;

// What lies in the rows at first, and is no order of the book.
fn junk() -> Order {
    Order {
        number: 1,
        side: Side::Buy,
        kind: Kind::Limit,
        price: 1_000,
        rank: 1,
        quantity: 1,
        account: [255; 8],
    }
}

// The body on a new book, over a sheet that held an order where it has a place.
fn on<B: Body, R: TickRule + Drop, S: OrderSheet + Drop>(rt: &impl Abort, rule: R, mut sheet: S) {
    let _ = sheet.put(junk());
    let mut book = Book::new(rule, sheet);
    B::run(rt, &mut book);
}

// The body on each sheet, with that many places a side.
fn on_sheets<B: Body, R: TickRule>(rt: &impl Abort, rule: &R, capacity: usize) {
    assert!(rt; capacity <= ROOM);
    let buys: &mut [Order] = &mut [junk(); ROOM];
    let offers: &mut [Order] = &mut [junk(); ROOM];
    on::<B, &R, PrioritySheet>(
        rt,
        rule,
        PrioritySheet::new(&mut buys[..capacity], &mut offers[..capacity]),
    );
    let rows: &mut [Order] = &mut [junk(); BOTH];
    on::<B, &R, ArrivalSheet>(rt, rule, ArrivalSheet::new(&mut rows[..2 * capacity]));
}

// Two rows with one step; the first tick of the second is the eleventh.
const ROWS: [Row; 2] = [
    Row {
        start: 1_000,
        step: 1_000,
    },
    Row {
        start: 11_000,
        step: 1_000,
    },
];

// Ticks under 1,000 and over 20,000 as well.
const WIDE: [Row; 2] = [
    Row {
        start: 100,
        step: 100,
    },
    Row {
        start: 1_000,
        step: 1_000,
    },
];

// The body on each book with that many places a side.
pub(crate) fn on_each<B: Body>(rt: &impl Abort, capacity: usize) -> Result<(), Fail> {
    let flat = Flat::new(1_000, 1_000, 20)?;
    on_sheets::<B, Flat>(rt, &flat, capacity);
    let mut banded = Banded::new();
    banded.load(&ROWS, 20_000)?;
    on_sheets::<B, Banded>(rt, &banded, capacity);
    let mut wide = Banded::new();
    wide.load(&WIDE, 50_000)?;
    let band = DailyBand::new(&wide, 1_000, 20_000);
    on_sheets::<B, DailyBand<&Banded>>(rt, &band, capacity);
    Ok(())
}
