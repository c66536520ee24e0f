// Steps 1 to 3 in one pass: what is kept of the rungs so far.
ghost use Rattle.std.specs.Prelude.{◌≡◌};
ghost use Rattle.pricing.specs.Tallies.{alone_of, joined_of, next_of, answer_of, auction_of, IsSmall};

use crate::rung::{Indication, Rung};
use std::cmp::Ordering;

/// Of the rungs so far, the greatest volume and with it the least excess; of those that have both the
/// lowest, the highest and the one nearest the reference price, and whether all of them have more bid
/// than asked, or all more asked than bid.
#[derive(Clone, Copy, PartialEq, Eq, Debug)]
pub(crate) struct Tally {
    best: u64,
    least: u64,
    low: Rung,
    high: Rung,
    near: Rung,
    positive: bool,
    negative: bool,
}

impl Tally {
    // Of one rung.
    pub(crate) fn alone(rung: Rung) -> Tally
        ensures { result ≡ alone_of rung }
    {
        Tally {
            best: rung.volume(),
            least: rung.excess(),
            low: rung,
            high: rung,
            near: rung,
            positive: rung.ask < rung.bid,
            negative: rung.bid < rung.ask,
        }
    }

    // With one rung more of the same volume and excess.
    fn joined(self, rung: Rung, reference: u32) -> Tally
        ensures { result ≡ joined_of reference self rung }
    {
        Tally {
            low: if rung.price < self.low.price {
                rung
            } else {
                self.low
            },
            high: if self.high.price < rung.price {
                rung
            } else {
                self.high
            },
            near: self.near.nearer(rung, reference),
            positive: self.positive && rung.ask < rung.bid,
            negative: self.negative && rung.bid < rung.ask,
            ..self
        }
    }

    // With one rung more.
    pub(crate) fn next(self, rung: Rung, reference: u32) -> Tally
        ensures { result ≡ next_of reference self rung }
    {
        let volume = rung.volume().cmp(&self.best);
        let excess = rung.excess().cmp(&self.least);
        match volume.then(excess.reverse()) {
            Ordering::Greater => Tally::alone(rung),
            Ordering::Equal => self.joined(rung, reference),
            Ordering::Less => self,
        }
    }

    // The rung that the third step chooses.
    fn answer(&self) -> Rung
        ensures { result ≡ answer_of self.now }
    {
        if self.positive {
            self.high
        } else if self.negative {
            self.low
        } else {
            self.near
        }
    }

    // The price of the auction, unless no rung trades a unit.
    pub(crate) fn auction(&self) -> Option<Indication>
        requires { IsSmall (answer_of self.now) }
        ensures { result ≡ auction_of self.now }
    {
        (self.best > 0).then_some(self.answer().indication())
    }
}
