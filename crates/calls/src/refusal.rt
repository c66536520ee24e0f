// Why a book refuses a call.
ghost use Rattle.std.specs.Prelude.{◌≡◌, Some, None};
ghost use Rattle.calls.specs.declared.refusal.PriceFault.TheVariants.{NotAdmitted};
ghost use Rattle.calls.specs.declared.refusal.Refusal.TheVariants.{Reference, Price, SideFull as FullSide};
ghost use Rattle.calls.specs.Listed.{listed};

use sheets::SideFull;
use ticks::Cause;

/// Why the prior price or the last sale is refused: the tick rule's cause, whole.
#[derive(Clone, Copy)]
pub struct ReferenceFault(pub Cause);

/// Why the price of an order is refused.
#[derive(Clone, Copy, PartialEq, Eq, Debug)]
pub enum PriceFault {
    /// The tick rule does not admit the limit price.
    NotAdmitted(Cause),
    /// The price of a market order is not 0.
    MarketPriced,
}

/// Why a call is refused, in checking order.
#[derive(Clone, Copy, PartialEq, Eq, Debug)]
pub enum Refusal {
    /// A call other than start finds the book shut.
    Shut,
    /// Start finds the book calling.
    AlreadyCalling,
    /// The prior price, or after it a last sale other than 0, is not admitted.
    Reference(Cause),
    /// The number to withdraw or amend does not stand.
    UnknownNumber,
    /// The quantity is 0 or over 1,000,000.
    Quantity,
    /// The order's price is refused.
    Price(PriceFault),
    /// A rank is needed and 1,000,000 are used.
    RanksSpent,
    /// The order's side is full.
    SideFull,
}

impl From<Cause> for ReferenceFault {
    ghost from_gives = { λ c r. r.0 ≡ c };

    fn from(cause: Cause) -> ReferenceFault {
        ReferenceFault(cause)
    }
}

impl From<Cause> for PriceFault {
    ghost from_gives = { λ c r. r ≡ NotAdmitted c };

    fn from(cause: Cause) -> PriceFault {
        PriceFault::NotAdmitted(cause)
    }
}

impl From<ReferenceFault> for Refusal {
    ghost from_gives = { λ f r. r ≡ Reference f.0 };

    fn from(fault: ReferenceFault) -> Refusal {
        Refusal::Reference(fault.0)
    }
}

impl From<PriceFault> for Refusal {
    ghost from_gives = { λ f r. r ≡ Price f };

    fn from(fault: PriceFault) -> Refusal {
        Refusal::Price(fault)
    }
}

impl From<SideFull> for Refusal {
    ghost from_gives = { λ _ r. r ≡ FullSide };

    fn from(_full: SideFull) -> Refusal {
        Refusal::SideFull
    }
}

impl Refusal {
    /// The number that a listing prints for it.
    pub fn number(&self) -> u8
        ensures { result ≡ (listed self.now).number }
    {
        match self {
            Refusal::Shut => 5,
            Refusal::AlreadyCalling => 6,
            Refusal::Reference(_) => 7,
            Refusal::UnknownNumber => 8,
            Refusal::Quantity => 9,
            Refusal::Price(_) => 10,
            Refusal::RanksSpent => 11,
            Refusal::SideFull => 12,
        }
    }

    /// The letter of the cause that a listing may print, where a price is refused: F, C, N or M.
    pub fn letter(&self) -> Option<char>
        ensures { result ≡ (listed self.now).letter }
    {
        match self {
            Refusal::Reference(cause) => Some(cause.letter()),
            Refusal::Price(PriceFault::NotAdmitted(cause)) => Some(cause.letter()),
            Refusal::Price(PriceFault::MarketPriced) => Some('M'),
            _ => None,
        }
    }
}
