// All commands of a tape.
ghost use Rattle.std.specs.Prelude.{◌≡◌, ◌+◌, ◌-◌, ◌^◌, ◌<◌, ◌≤◌, ◌&&◌, length, drop, is_ok, IfOk, IfErr, nat_le};
ghost use Rattle.tape.specs.declared.fault.TapeFault.TheVariants.{OutOfBounds};
ghost use Rattle.opening.specs.Runs.{yes_of, no_of, Ran};

use crate::commands::advance;
use crate::fault::At;
use book::Book;
use calls::{Answer, Refusal};
use sheets::OrderSheet;
use tape::{Reader, TapeFault, tape_from};
use ticks::TickRule;

/// How many calls were accepted, and how many refused.
#[derive(Clone, Copy, PartialEq, Eq, Default, Debug)]
pub struct Counts {
    pub accepted: usize,
    pub refused: usize,
}

/// How a run went, and the fault that ended it before the tape's end, if any.
#[derive(Clone, Copy, PartialEq, Eq, Debug)]
pub struct Report {
    pub counts: Counts,
    pub fault: Option<At<TapeFault>>,
}

impl Counts {
    /// One call more.
    pub fn note(&mut self, said: &Result<Answer, Refusal>)
        requires { self.old.accepted + self.old.refused < 2 ^ 64 - 1 }
        ensures accepted { self.new.accepted ≡ self.old.accepted + yes_of said.now }
        ensures refused { self.new.refused ≡ self.old.refused + no_of said.now }
    {
        match said {
            Ok(_) => self.accepted += 1,
            Err(_) => self.refused += 1,
        }
    }
}

// Runs a whole tape, whose front is at `start` of the caller's.
fn run_all<R: TickRule, S: OrderSheet>(book: &mut Book<R, S>, tape: &[u8], start: usize) -> Report
    requires { start + length tape.now ≤ 65535 }
    ensures { Ran R.TickRule S.OrderSheet tape.now start book.old result book.new }
{
    let mut reader = Reader::new(tape);
    let mut counts = Counts::default();
    let (counts, fault) = 'commands: loop {
        let place = start + reader.place();
        match advance(book, &mut reader) {
            Ok(Some(said)) => counts.note(&said),
            Ok(None) => break (counts, None),
            Err(fault) => break (counts, Some(At { place, fault })),
        }
    };
    Report { counts, fault }
}

/// Runs a tape from a starting place on: each command in turn, refused ones counted, up to the tape's
/// end or its first fault. It is refused, and the book left as it was, exactly where the tape is over
/// 65,535 bytes or the place is past its end.
pub fn run<R: TickRule, S: OrderSheet>(
    book: &mut Book<R, S>,
    tape: &[u8],
    place: usize,
) -> Result<Report, TapeFault>
    ensures test { is_ok result ≡ nat_le (length tape.now) 65535 && nat_le place (length tape.now) }
    ensures ran { IfOk result (λ report. Ran R.TickRule S.OrderSheet (drop place tape.now) place book.old report book.new) }
    ensures fault { IfErr result (λ f. (f ≡ OutOfBounds) × (book.new ≡ book.old)) }
{
    let part = tape_from(tape, place)?;
    Ok(run_all(book, part, place))
}
