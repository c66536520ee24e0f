// The commands of an order tape.
use market::Terms;

/// One command. The account is a part of the tape that the command was read from; a command to be
/// written may hold an account of any length, and is refused unless it has eight bytes.
#[derive(Clone, Copy, PartialEq, Debug)]
pub enum Command<'a> {
    Start {
        prior: u32,
        last: u32,
    },
    Enter(Terms<&'a [u8]>),
    Withdraw {
        number: u32,
    },
    Amend {
        number: u32,
        price: u32,
        quantity: u32,
    },
}
