// Takes the command apart that bytes begin with.
ghost use Rattle.std.specs.Prelude.{◌≡◌, ℕ, ◌+◌, ◌*◌, ◌≤◌, ◌++◌, length, IfOk, Ok, Err};
ghost use Rattle.tape.specs.Format.{decode, encode, start_in, enter_in, withdraw_in, amend_in, with_side, with_kind};
ghost use Rattle.tape.specs.Views.{view, Taken};

use crate::command::Command;
use crate::fault::TapeFault;
use market::{Kind, Side, Terms};

fn side_of(byte: u8) -> Result<Side, TapeFault>
    ensures { result ≡ with_side byte Ok }
{
    match byte {
        0x42 => Ok(Side::Buy),
        0x4F => Ok(Side::Offer),
        _ => Err(TapeFault::UnlistedByte),
    }
}

fn kind_of(byte: u8) -> Result<Kind, TapeFault>
    ensures { result ≡ with_kind byte Ok }
{
    match byte {
        0x4C => Ok(Kind::Limit),
        0x4D => Ok(Kind::Market),
        _ => Err(TapeFault::UnlistedByte),
    }
}

// The number in four bytes that a pattern named.
fn word(a: &u8, b: &u8, c: &u8, d: &u8) -> u32
    ensures { result ≡ a.now * 16777216 + b.now * 65536 + c.now * 256 + d.now }
{
    u32::from_be_bytes([*a, *b, *c, *d])
}

// A start command.
fn start<'a>(bytes: &'a [u8]) -> Result<(Command<'a>, &'a [u8]), TapeFault>
    ensures { Taken bytes.entry (start_in bytes.now) result }
{
    let [_, a, b, c, d, e, f, g, h, rest @ ..] = bytes else {
        return Err(TapeFault::Truncated);
    };
    let prior = word(a, b, c, d);
    let last = word(e, f, g, h);
    Ok((Command::Start { prior, last }, rest))
}

// An enter command, whose account is a part of the bytes.
fn enter<'a>(bytes: &'a [u8]) -> Result<(Command<'a>, &'a [u8]), TapeFault>
    ensures { Taken bytes.entry (enter_in bytes.now) result }
{
    let [_, side, kind, a, b, c, d, e, f, g, h, rest @ ..] = bytes else {
        return Err(TapeFault::Truncated);
    };
    if rest.len() < 8 {
        return Err(TapeFault::Truncated);
    }
    let terms = Terms {
        side: side_of(*side)?,
        kind: kind_of(*kind)?,
        price: word(a, b, c, d),
        quantity: word(e, f, g, h),
        account: &rest[..8],
    };
    Ok((Command::Enter(terms), &rest[8..]))
}

// A withdraw command.
fn withdraw<'a>(bytes: &'a [u8]) -> Result<(Command<'a>, &'a [u8]), TapeFault>
    ensures { Taken bytes.entry (withdraw_in bytes.now) result }
{
    let [_, a, b, c, d, rest @ ..] = bytes else {
        return Err(TapeFault::Truncated);
    };
    let number = word(a, b, c, d);
    Ok((Command::Withdraw { number }, rest))
}

// An amend command.
fn amend<'a>(bytes: &'a [u8]) -> Result<(Command<'a>, &'a [u8]), TapeFault>
    ensures { Taken bytes.entry (amend_in bytes.now) result }
{
    let [_, a, b, c, d, e, f, g, h, i, j, k, l, rest @ ..] = bytes else {
        return Err(TapeFault::Truncated);
    };
    let number = word(a, b, c, d);
    let price = word(e, f, g, h);
    let quantity = word(i, j, k, l);
    Ok((
        Command::Amend {
            number,
            price,
            quantity,
        },
        rest,
    ))
}

// The command that the bytes begin with, and the rest of them.
fn split<'a>(bytes: &'a [u8]) -> Result<(Command<'a>, &'a [u8]), TapeFault>
    ensures { Taken bytes.entry (decode bytes.now) result }
{
    match bytes {
        [] => Err(TapeFault::Truncated),
        [0x53, ..] => start(bytes),
        [0x45, ..] => enter(bytes),
        [0x58, ..] => withdraw(bytes),
        [0x41, ..] => amend(bytes),
        _ => Err(TapeFault::UnknownCommand),
    }
}

/// The command that the bytes begin with, and the rest of them. The bytes are the command's writing
/// and then the rest: no other bytes are read as that command.
pub fn read<'a>(bytes: &'a [u8]) -> Result<(Command<'a>, &'a [u8]), TapeFault>
    ensures taken { Taken bytes.entry (decode bytes.now) result }
    ensures writing { IfOk result (λ x. bytes.now ≡ encode (view x.0) ++ x.1.now) }
{
    split(bytes)
}
