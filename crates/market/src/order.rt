// An order and its terms.
ghost use Rattle.std.specs.Prelude.{Some};
ghost use Rattle.market.specs.Words.{side_word, kind_word};

use std::fmt;

/// The side of the market that an order is on.
#[derive(Clone, Copy, PartialEq, Eq, Debug)]
pub enum Side {
    Buy,
    Offer,
}

/// A market order takes any price, and goes before every limit order, which names one.
#[derive(Clone, Copy, PartialEq, Eq, PartialOrd, Ord, Debug)]
pub enum Kind {
    Market,
    Limit,
}

/// What an order asks for, and its account, held or borrowed.
#[derive(Clone, Copy, PartialEq, Eq, Debug)]
pub struct Terms<A> {
    pub side: Side,
    pub kind: Kind,
    pub price: u32,
    pub quantity: u32,
    pub account: A,
}

/// An order that stands: `price` is 0 at a market order, `quantity` is what is left of it, and
/// `rank` says when it took its place in the queue. It is flat, since price and quantity change by
/// themselves.
#[derive(Clone, Copy, PartialEq, Eq, Debug)]
pub struct Order {
    pub number: u32,
    pub side: Side,
    pub kind: Kind,
    pub price: u32,
    pub rank: u32,
    pub quantity: u32,
    pub account: [u8; 8],
}

impl fmt::Display for Side {
    ghost output = { λ s. Some (side_word s) };

    fn fmt<W: fmt::Write>(&self, f: &mut fmt::Formatter<W>) -> fmt::Result {
        f.write_str(match self {
            Side::Buy => "buy",
            Side::Offer => "offer",
        })
    }
}

impl fmt::Display for Kind {
    ghost output = { λ k. Some (kind_word k) };

    fn fmt<W: fmt::Write>(&self, f: &mut fmt::Formatter<W>) -> fmt::Result {
        f.write_str(match self {
            Kind::Limit => "limit",
            Kind::Market => "market",
        })
    }
}
