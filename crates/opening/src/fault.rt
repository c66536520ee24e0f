// Why a step did nothing.
ghost use Rattle.std.specs.Prelude.{◌≡◌};
ghost use Rattle.opening.specs.declared.fault.StepFault.TheVariants.{Tape, Book};
ghost use Rattle.opening.specs.Placed.{placed, step_number};

use calls::Refusal;
use tape::TapeFault;

/// What went wrong, and the place of the command.
#[derive(Clone, Copy, PartialEq, Eq, Debug)]
pub struct At<E> {
    pub place: usize,
    pub fault: E,
}

/// A fault of the tape or a refusal of the book, whole, with the place of the command.
#[derive(Clone, Copy, PartialEq, Eq, Debug)]
pub enum StepFault {
    Tape(At<TapeFault>),
    Book(At<Refusal>),
}

// Says where a fault is.
pub(crate) fn located<T, E>(place: usize, res: Result<T, E>) -> Result<T, At<E>>
    ensures { result ≡ placed place res }
{
    res.map_err(|fault| At { place, fault })
}

impl From<At<TapeFault>> for StepFault {
    ghost from_gives = { λ a r. r ≡ Tape a };

    fn from(at: At<TapeFault>) -> StepFault {
        StepFault::Tape(at)
    }
}

impl From<At<Refusal>> for StepFault {
    ghost from_gives = { λ a r. r ≡ Book a };

    fn from(at: At<Refusal>) -> StepFault {
        StepFault::Book(at)
    }
}

impl StepFault {
    /// The number that a listing prints for it.
    pub fn number(&self) -> u8
        ensures { result ≡ step_number self.now }
    {
        match self {
            StepFault::Tape(at) => at.fault.number(),
            StepFault::Book(at) => at.fault.number(),
        }
    }
}
