// One command from a tape to a book.
ghost use Rattle.std.specs.Prelude.{◌≡◌, true, length};
ghost use Rattle.tape.specs.Views.{view, has_account};
ghost use Rattle.opening.specs.Calls.{call_of, held};
ghost use Rattle.opening.specs.Steps.{Advanced};

use book::Book;
use calls::{Answer, Call, Refusal};
use market::Terms;
use sheets::OrderSheet;
use tape::{Command, Reader, TapeFault};
use ticks::TickRule;

// The same terms, with the account held.
fn held(terms: Terms<&[u8]>) -> Terms<[u8; 8]>
    requires { length terms.account.now ≡ 8 }
    ensures { result ≡ held terms.entry }
{
    let mut account = [0; 8];
    account.copy_from_slice(terms.account);
    Terms {
        side: terms.side,
        kind: terms.kind,
        price: terms.price,
        quantity: terms.quantity,
        account,
    }
}

// The call that a command makes; no `From`, since it needs an account of eight bytes.
fn call_of(command: Command<'_>) -> Call
    requires { has_account (view command) ≡ true }
    ensures { result ≡ call_of (view command.entry) }
{
    match command {
        Command::Start { prior, last } => Call::Start { prior, last },
        Command::Enter(terms) => Call::Enter(held(terms)),
        Command::Withdraw { number } => Call::Withdraw { number },
        Command::Amend {
            number,
            price,
            quantity,
        } => Call::Amend {
            number,
            price,
            quantity,
        },
    }
}

/// Reads the next command and makes its call: what the book says, or none at the tape's end. A
/// fault of the tape leaves reader and book as they were.
pub fn advance<R: TickRule, S: OrderSheet>(
    book: &mut Book<R, S>,
    reader: &mut Reader<'_>,
) -> Result<Option<Result<Answer, Refusal>>, TapeFault>
    ensures tape { reader.new.tape ≡ reader.old.tape }
    ensures step { Advanced R.TickRule S.OrderSheet reader.old.tape.now reader.old.place book.old result reader.new.place book.new }
{
    let Some(command) = reader.next()? else {
        return Ok(None);
    };
    Ok(Some(book.call(call_of(command))))
}
