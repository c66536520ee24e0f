// What a book says, in words.
ghost use Rattle.std.specs.Prelude.{Some};
ghost use Rattle.calls.specs.Listed.{told};
ghost use Rattle.opening_run.specs.Listing.{words};

use calls::{Answer, Refusal};
use std::fmt;

/// What a book says to a call.
#[derive(Clone, Copy)]
pub struct Said(pub Result<Answer, Refusal>);

impl fmt::Display for Said {
    ghost output = { λ s. Some (words (told s.0)) };

    fn fmt<W: fmt::Write>(&self, f: &mut fmt::Formatter<W>) -> fmt::Result {
        match self.0 {
            Ok(Answer::Started) => f.write_str("started"),
            Ok(Answer::Entered(number) | Answer::Amended(number)) => write!(f, "order {number}"),
            Ok(Answer::Withdrawn(quantity)) => write!(f, "withdrawn {quantity}"),
            Ok(Answer::Shown(_)) => f.write_str("shown"),
            Err(refusal) => {
                let number = refusal.number();
                write!(f, "refused {number}")
            }
        }
    }
}
