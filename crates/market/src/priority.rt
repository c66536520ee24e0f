// Who comes first on a side.
ghost use Rattle.std.specs.Prelude.{◌≡◌, ℕ, ◌<◌, Bool, true, false};
ghost use Rattle.market.specs.Priority.{compare_prices, leads, priority_of};
ghost use Rattle.market.specs.Ranked.{leads-irreflexive, leads-transitive, leads-total};

use crate::order::{Kind, Order, Side};
use ordered::Ranking;
use std::cmp::Ordering;

/// What decides an order's place in its side's queue.
#[derive(Clone, Copy, PartialEq, Eq, Debug)]
pub struct Priority {
    pub kind: Kind,
    pub price: u32,
    pub rank: u32,
    pub number: u32,
}

impl Order {
    pub fn priority(&self) -> Priority
        ensures { result ≡ priority_of self.now }
    {
        Priority {
            kind: self.kind,
            price: self.price,
            rank: self.rank,
            number: self.number,
        }
    }
}

impl Side {
    // Market before limit, then the better price, then the lower rank, then the lower number.
    pub fn leads(&self, first: &Priority, second: &Priority) -> bool
        ensures { result ≡ leads self.now first.now second.now }
    {
        if first.kind != second.kind {
            return first.kind < second.kind;
        }
        if first.price != second.price {
            return self.compare_prices(first.price, second.price).is_lt();
        }
        if first.rank != second.rank {
            return first.rank < second.rank;
        }
        first.number < second.number
    }

    // The better price is the less.
    fn compare_prices(&self, first: u32, second: u32) -> Ordering
        ensures { result ≡ compare_prices self.now first second }
    {
        match self {
            Side::Buy => second.cmp(&first),
            Side::Offer => first.cmp(&second),
        }
    }
}

impl Ranking<Order> for Side {
    type Key = Priority;

    ghost key_of = { λ _ o. priority_of o };

    ghost ahead = { leads };

    ghost irreflexive = { leads-irreflexive };

    ghost transitive = { leads-transitive };

    ghost total = { leads-total };

    fn key(&self, order: &Order) -> Priority {
        order.priority()
    }

    fn before(&self, first: &Priority, second: &Priority) -> bool {
        self.leads(first, second)
    }
}
