// A command in words.
ghost use Rattle.std.specs.Prelude.{Some};
ghost use Rattle.tape.specs.Views.{view};
ghost use Rattle.tape_list.specs.Listing.{account_text, words};

use market::Terms;
use std::fmt;
use tape::Command;

/// A command, shown as its name and its operands.
#[derive(Drop)]
pub struct Words<'a>(pub Command<'a>);

// An account, byte by byte: a visible character but the backslash as itself, and any other byte as a
// backslash, `x` and two hexadecimal digits.
#[derive(Drop)]
struct AccountText<'a>(&'a [u8]);

impl fmt::Display for AccountText<'_> {
    ghost output = { λ a. Some (account_text a.0.now) };

    fn fmt<W: fmt::Write>(&self, f: &mut fmt::Formatter<W>) -> fmt::Result {
        for &byte in self.0 {
            if byte.is_ascii_graphic() && byte != b'\\' {
                f.write_char(byte as char)?;
            } else {
                write!(f, "\\x{byte:02X}")?;
            }
        }
        Ok(())
    }
}

impl fmt::Display for Words<'_> {
    ghost output = { λ w. Some (words (view w.0)) };

    fn fmt<W: fmt::Write>(&self, f: &mut fmt::Formatter<W>) -> fmt::Result {
        match self.0 {
            Command::Start { prior, last } => write!(f, "start prior {prior} last {last}"),
            Command::Enter(terms) => {
                let Terms {
                    side,
                    kind,
                    price,
                    quantity,
                    account,
                } = terms;
                let account = AccountText(account);
                write!(
                    f,
                    "enter {side} {kind} price {price} quantity {quantity} account {account}"
                )
            }
            Command::Withdraw { number } => write!(f, "withdraw number {number}"),
            Command::Amend {
                number,
                price,
                quantity,
            } => { write!(f, "amend number {number} price {price} quantity {quantity}") }
        }
    }
}
