//! The tapes, and the rows of the books that they drive.

use market::{Kind, Order, Side};

/// By places: 0 start at 10,000; 9 enter a buy of 100 at 12,000; 28 withdraw 7, which does not stand;
/// 33 amend 1 to 10 at 12,000; 46 withdraw 1.
pub(crate) const WHOLE: [u8; 51] =
    *b"\x53\x00\x00\x27\x10\x00\x00\x00\x00\x45\x42\x4C\x00\x00\x2E\xE0\x00\x00\x00\x64ACCT0001\x58\x00\x00\x00\x07\x41\x00\x00\x00\x01\x00\x00\x2E\xE0\x00\x00\x00\x0A\x58\x00\x00\x00\x01";

/// What lies in the rows at first, and is no order of the book.
pub(crate) const JUNK: Order = Order {
    number: 1,
    side: Side::Buy,
    kind: Kind::Limit,
    price: 1,
    rank: 1,
    quantity: 1,
    account: [9; 8],
};

/// The order that is entered at place 9, with the quantity that stands of it.
pub(crate) fn entered(quantity: u32) -> Order {
    Order {
        number: 1,
        side: Side::Buy,
        kind: Kind::Limit,
        price: 12_000,
        rank: 1,
        quantity,
        account: *b"ACCT0001",
    }
}
