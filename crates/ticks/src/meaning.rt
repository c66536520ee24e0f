//! What the definitions say, in the words of the subject.

ghost use Rattle.ticks.specs.Questions.{AdmitsInOrder, AboveIsSmallest, BelowIsGreatest};
ghost use Rattle.ticks.specs.FlatWords.{FlatConditions, FlatLadder};
ghost use Rattle.ticks.specs.RowWords.{LoadConditions, RowLadder};

/// *Admit* gives F under the floor, else C over the ceiling, else N off the ticks, else yes;
/// *above* answers the smallest tick greater than p, or there is none; *below* the greatest smaller.
pub fn answers_stand()
    ensures admit { AdmitsInOrder }
    ensures above { AboveIsSmallest }
    ensures below { BelowIsGreatest }
{}

/// A flat rule is refused exactly where a condition is broken; its ticks are the first tick and
/// every step from it up to the last; floor and ceiling are the first and the last tick.
pub fn flat_stands()
    ensures conditions { FlatConditions }
    ensures ladder { FlatLadder }
{}

/// A load is refused exactly where a condition is broken; the ticks are each start and every step
/// from it below the next start, the last row up to and including the end; floor and ceiling are
/// the first and the last tick.
pub fn banded_stands()
    ensures conditions { LoadConditions }
    ensures ladder { RowLadder }
{}
