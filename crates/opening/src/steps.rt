// One command at a place of a tape.
ghost use Rattle.opening.specs.Steps.{Stepped};

use crate::commands::advance;
use crate::fault::{At, StepFault, located};
use book::Book;
use calls::Answer;
use sheets::OrderSheet;
use tape::{Reader, TapeFault, tape_from};
use ticks::TickRule;

/// Does the one command at a place of the tape.
pub fn step<R: TickRule, S: OrderSheet>(
    book: &mut Book<R, S>,
    tape: &[u8],
    place: usize,
) -> Result<Answer, StepFault>
    ensures { Stepped R.TickRule S.OrderSheet tape.now place book.old result book.new }
{
    let mut reader = Reader::new(located(place, tape_from(tape, place))?);
    let Some(said) = located(place, advance(book, &mut reader))? else {
        return Err(StepFault::Tape(At {
            place,
            fault: TapeFault::Truncated,
        }));
    };
    Ok(located(place, said)?)
}
