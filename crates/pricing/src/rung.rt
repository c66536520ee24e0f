// A tick of the ladder, with what is bid and asked there.
ghost use Rattle.std.specs.Prelude.{◌≡◌, ◌<◌};
ghost use Rattle.pricing.specs.Tallies.{volume_of, excess_of, gap_of, nearer_of, indicated, IsSmall};

/// A tick, with the quantity of the buys and of the offers that take part at it.
#[derive(Clone, Copy, PartialEq, Eq, Debug)]
pub struct Rung {
    pub price: u32,
    pub bid: u64,
    pub ask: u64,
}

/// A price with what trades there, and what is bid there less what is asked.
#[derive(Clone, Copy, PartialEq, Eq, Debug)]
pub struct Indication {
    pub price: u32,
    pub volume: u64,
    pub imbalance: i64,
}

impl Rung {
    // What trades at the tick.
    pub(crate) fn volume(&self) -> u64
        ensures { result ≡ volume_of self.now }
    {
        self.bid.min(self.ask)
    }

    // The imbalance without its sign.
    pub(crate) fn excess(&self) -> u64
        ensures { result ≡ excess_of self.now }
    {
        self.bid.abs_diff(self.ask)
    }

    // How far the tick is from the reference price.
    fn gap(&self, reference: u32) -> u32
        ensures { result ≡ gap_of reference self.now }
    {
        reference.abs_diff(self.price)
    }

    // The nearer of two, and of two equally near the lower.
    pub(crate) fn nearer(self, other: Rung, reference: u32) -> Rung
        ensures { result ≡ nearer_of reference self other }
    {
        let (near, far) = (self.gap(reference), other.gap(reference));
        if far < near || (far == near && other.price < self.price) {
            other
        } else {
            self
        }
    }

    // The tick as the price of the auction.
    pub(crate) fn indication(&self) -> Indication
        requires { IsSmall self.now }
        ensures { result ≡ indicated self.now }
    {
        Indication {
            price: self.price,
            volume: self.volume(),
            imbalance: self.bid as i64 - self.ask as i64,
        }
    }
}
