// The calls of a book and their answers.
use market::{Order, Terms};

/// A book is shut until it is started, and calling from then on.
#[derive(Clone, Copy, PartialEq, Eq, Debug)]
pub enum Phase {
    Shut,
    Calling,
}

/// What is asked of a book. It is not the tape's `Command` with an account of its own: show does not
/// stand on a tape.
#[derive(Clone, Copy, PartialEq, Debug)]
pub enum Call {
    /// Opens the call with the prior price (the settlement or IPO price) and the last sale, 0 for none.
    Start {
        prior: u32,
        last: u32,
    },
    /// A new order; the price is 0 at a market order.
    Enter(Terms<[u8; 8]>),
    /// Takes an order out.
    Withdraw {
        number: u32,
    },
    /// Sets an order's price and the quantity that stands of it.
    Amend {
        number: u32,
        price: u32,
        quantity: u32,
    },
    /// Looks an order up.
    Show {
        number: u32,
    },
}

/// What a call answers that is not refused.
#[derive(Clone, Copy, PartialEq, Debug)]
pub enum Answer {
    Started,
    /// The number of the new order.
    Entered(u32),
    /// The quantity that stood of the order.
    Withdrawn(u32),
    /// The number of the order.
    Amended(u32),
    Shown(Option<Order>),
}
