//! What a tick rule means, and the three questions that it is asked.

ghost use Rattle.std.specs.Prelude.{◌≡◌, ℕ, List};
ghost use Rattle.ticks.specs.Ticks.{admitted, first_above, last_below, Lawful};
ghost use Rattle.ticks.specs.Causes.{letter_of};

/// The most ticks that a rule may have.
pub const MAX_TICKS: u32 = 1_000_000;

/// Why a price is not admitted.
#[derive(Clone, Copy, PartialEq, Eq, Debug)]
pub enum Cause {
    BelowFloor,
    AboveCeiling,
    OffTick,
}

impl Cause {
    /// The letter that a listing prints for it: F, C or N.
    pub fn letter(&self) -> char
        ensures { result ≡ letter_of self.now }
    {
        match self {
            Cause::BelowFloor => 'F',
            Cause::AboveCeiling => 'C',
            Cause::OffTick => 'N',
        }
    }
}

/// A strictly rising list of ticks with a floor and a ceiling.
///
/// A question takes the rule by a shared reference, so that it changes neither the rule nor later
/// answers.
pub trait TickRule {
    ghost ticks: { Self → List ℕ };

    ghost floor: { Self → ℕ };

    ghost ceiling: { Self → ℕ };

    ghost laws: { (r : Self) → Lawful (ticks r) (floor r) (ceiling r) };

    /// Whether `p` is a tick from the floor to the ceiling, and if not, why.
    fn admit(&self, p: u32) -> Result<(), Cause>
        ensures { result ≡ admitted (ticks self.now) (floor self.now) (ceiling self.now) p };

    /// The smallest tick greater than `p`; floor and ceiling play no part.
    fn above(&self, p: u32) -> Option<u32>
        ensures { result ≡ first_above (ticks self.now) p };

    /// The greatest tick smaller than `p`; floor and ceiling play no part.
    fn below(&self, p: u32) -> Option<u32>
        ensures { result ≡ last_below (ticks self.now) p };
}
