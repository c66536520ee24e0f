// How a listing ends.
ghost use Rattle.std.specs.Prelude.{Some};
ghost use Rattle.tape_list.specs.Closing.{closing};

use std::fmt;
use tape::TapeFault;

/// How many commands were read, the place behind them, and the fault there, if any.
#[derive(Clone, Copy)]
pub struct End {
    pub count: usize,
    pub place: usize,
    pub fault: Option<TapeFault>,
}

impl fmt::Display for End {
    ghost output = { λ e. Some (closing e) };

    fn fmt<W: fmt::Write>(&self, f: &mut fmt::Formatter<W>) -> fmt::Result {
        let End {
            count,
            place,
            fault,
        } = *self;
        match fault {
            None => write!(f, "end {count}"),
            Some(fault) => {
                let number = fault.number();
                write!(f, "fault {number} at {place}")
            }
        }
    }
}
