// Why a tape is not read on, and why a record is not written.
ghost use Rattle.std.specs.Prelude.{◌≡◌};
ghost use Rattle.tape.specs.Numbers.{tape_number, write_number};

/// A fault of a tape.
#[derive(Clone, Copy, PartialEq, Eq, Debug)]
pub enum TapeFault {
    /// The tape is over 65,535 bytes, or the starting place is past its end.
    OutOfBounds,
    /// The command byte is not on the list.
    UnknownCommand,
    /// The operands run past the tape's end, or there is no command byte.
    Truncated,
    /// A side or kind byte is not on the list.
    UnlistedByte,
}

impl TapeFault {
    /// The number that a listing prints for it.
    pub fn number(&self) -> u8
        ensures { result ≡ tape_number self.now }
    {
        match self {
            TapeFault::OutOfBounds => 1,
            TapeFault::UnknownCommand => 2,
            TapeFault::Truncated => 3,
            TapeFault::UnlistedByte => 4,
        }
    }
}

/// Why a record is not written.
#[derive(Clone, Copy, PartialEq, Eq, Debug)]
pub enum WriteFault {
    /// The account is not eight bytes.
    AccountLength,
    /// The output is shorter than the record.
    ShortOutput,
}

impl WriteFault {
    /// The number that a listing prints for it.
    pub fn number(&self) -> u8
        ensures { result ≡ write_number self.now }
    {
        match self {
            WriteFault::AccountLength => 4,
            WriteFault::ShortOutput => 14,
        }
    }
}
