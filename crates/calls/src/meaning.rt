//! What holds of every book that calls lead to.

ghost use Rattle.calls.specs.Reached.{EachReached};

/// Of every book that calls lead to from a new one: each order that stands has a quantity in range,
/// a limit price that the rule admits or the market price 0, and a number and a rank that were
/// given; no two have the same rank; the prices that the book was started with are admitted.
pub fn calls_stand()
    ensures { EachReached }
{}
