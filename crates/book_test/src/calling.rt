//! Calls, and what they are answered.

use book::Book;
use calls::{Answer, Call, Refusal};
use market::{Kind, Order, Side, Terms};
use sheets::OrderSheet;
use std::process::Abort;
use ticks::TickRule;

// The accounts of the buys and of the offers.
const BUYER: [u8; 8] = [b'B', b'U', b'Y', b'E', b'R', b'0', b'0', b'1'];

const SELLER: [u8; 8] = [b'S', b'E', b'L', b'L', b'E', b'R', b'0', b'2'];

// Prices that no rule here admits, with the letter of the cause.
pub(crate) const BAD_PRICES: [(u32, char); 9] = [
    (0, 'F'),
    (500, 'F'),
    (999, 'F'),
    (1_001, 'N'),
    (1_500, 'N'),
    (19_999, 'N'),
    (20_001, 'C'),
    (21_000, 'C'),
    (4_294_967_295, 'C'),
];

// Quantities that no order may have.
pub(crate) const BAD_QUANTITIES: [u32; 3] = [0, 1_000_001, 4_294_967_295];

// A call with its refusal: the number, and the letter where there is one.
pub(crate) type Refused = (Call, u8, Option<char>);

// The terms of a limit order.
pub(crate) fn limit(side: Side, price: u32, quantity: u32) -> Terms<[u8; 8]> {
    let account = match side {
        Side::Buy => BUYER,
        Side::Offer => SELLER,
    };
    Terms {
        side,
        kind: Kind::Limit,
        price,
        quantity,
        account,
    }
}

// The terms of a market order.
pub(crate) fn market(side: Side, quantity: u32) -> Terms<[u8; 8]> {
    Terms {
        kind: Kind::Market,
        ..limit(side, 0, quantity)
    }
}

// The terms of a market order that names a price.
pub(crate) fn priced(side: Side, price: u32) -> Terms<[u8; 8]> {
    Terms {
        price,
        ..market(side, 10)
    }
}

// A limit buy that every rule here admits.
pub(crate) fn buy() -> Terms<[u8; 8]> {
    limit(Side::Buy, 7_000, 10)
}

// The order that stands by its terms.
pub(crate) fn order(number: u32, rank: u32, terms: Terms<[u8; 8]>) -> Order {
    let Terms {
        side,
        kind,
        price,
        quantity,
        account,
    } = terms;
    Order {
        number,
        side,
        kind,
        price,
        rank,
        quantity,
        account,
    }
}

// The call that starts a book.
pub(crate) fn start(prior: u32, last: u32) -> Call {
    Call::Start { prior, last }
}

// The call that amends an order.
pub(crate) fn amend(number: u32, price: u32, quantity: u32) -> Call {
    Call::Amend {
        number,
        price,
        quantity,
    }
}

// A call that is accepted.
pub(crate) fn answers<R: TickRule, S: OrderSheet>(
    rt: &impl Abort,
    book: &mut Book<R, S>,
    call: Call,
    answer: Answer,
) {
    assert_eq!(rt; book.call(call), Ok(answer), "{call:?}");
}

// Starts the book without a last sale.
pub(crate) fn starts<R: TickRule, S: OrderSheet>(rt: &impl Abort, book: &mut Book<R, S>) {
    answers(rt, book, start(7_000, 0), Answer::Started);
}

// What stands under a number.
pub(crate) fn shows<R: TickRule, S: OrderSheet>(
    rt: &impl Abort,
    book: &mut Book<R, S>,
    number: u32,
    order: Option<Order>,
) {
    answers(rt, book, Call::Show { number }, Answer::Shown(order));
}

// An order that enters under the next rank, which is its number too.
pub(crate) fn enters<R: TickRule, S: OrderSheet>(
    rt: &impl Abort,
    book: &mut Book<R, S>,
    terms: Terms<[u8; 8]>,
    rank: u32,
) {
    answers(rt, book, Call::Enter(terms), Answer::Entered(rank));
    shows(rt, book, rank, Some(order(rank, rank, terms)));
}

// An order that is withdrawn with what stood of it.
pub(crate) fn withdraws<R: TickRule, S: OrderSheet>(
    rt: &impl Abort,
    book: &mut Book<R, S>,
    number: u32,
    quantity: u32,
) {
    answers(
        rt,
        book,
        Call::Withdraw { number },
        Answer::Withdrawn(quantity),
    );
    shows(rt, book, number, None);
}

// An order that is amended to those terms, and has that rank then.
pub(crate) fn amends<R: TickRule, S: OrderSheet>(
    rt: &impl Abort,
    book: &mut Book<R, S>,
    number: u32,
    terms: Terms<[u8; 8]>,
    rank: u32,
) {
    let call = amend(number, terms.price, terms.quantity);
    answers(rt, book, call, Answer::Amended(number));
    shows(rt, book, number, Some(order(number, rank, terms)));
}

// What stands under the first numbers.
fn standing<R: TickRule, S: OrderSheet>(book: &mut Book<R, S>) -> [Result<Answer, Refusal>; 10] {
    let mut shown = [Err(Refusal::Shut); 10];
    for number in 0..10_u32 {
        shown[number as usize] = book.call(Call::Show { number });
    }
    shown
}

// A call that is refused, and leaves every order as it was.
pub(crate) fn refuses<R: TickRule, S: OrderSheet>(
    rt: &impl Abort,
    book: &mut Book<R, S>,
    refused: Refused,
) {
    let (call, number, letter) = refused;
    let before = standing(book);
    let refusal = book.call(call).err().map(|r| (r.number(), r.letter()));
    assert_eq!(rt; refusal, Some((number, letter)), "{call:?}");
    assert_eq!(rt; standing(book), before, "{call:?}");
}

// Every call of a table, refused.
pub(crate) fn refuses_all<R: TickRule, S: OrderSheet>(
    rt: &impl Abort,
    book: &mut Book<R, S>,
    table: &[Refused],
) {
    for refused in table {
        refuses(rt, book, *refused);
    }
}
