// The listing of an opening.
ghost use Rattle.std.specs.Prelude.{◌≡◌, ◌≤◌, List, [], ◌∷◌, ◌++◌, map, length, string_bytes, IfOk, OnOk};
ghost use Rattle.calls.specs.Listed.{told};
ghost use Rattle.calls.specs.State.{opened};
ghost use Rattle.calls.specs.Machine.{replies};
ghost use Rattle.tape.specs.Format.{Record};
ghost use Rattle.book.specs.Books.{rule_of, setting_of, state_of};
ghost use Rattle.opening.specs.Calls.{call_of};
ghost use Rattle.opening.specs.Runs.{Ran};
ghost use Rattle.opening_run.specs.Listing.{line, lines, Played, Listing};

use crate::closing::Closing;
use crate::said::Said;
use book::Book;
use calls::{Answer, Refusal};
use opening::{At, Counts, Report, advance};
use sheets::OrderSheet;
use std::alloc::{AllocError, Global};
use tape::{Reader, tape_from};
use ticks::TickRule;

// Adds the line of one command.
fn add_line(
    text: &mut String,
    ordinal: usize,
    said: Result<Answer, Refusal>,
) -> Result<(), AllocError>
    ensures { OnOk result (string_bytes text.new ≡ string_bytes text.old ++ line ordinal (told said)) }
{
    let said = Said(said);
    writeln!(text, "{ordinal} {said}")
}

// Gives the book each command of the tape, up to its end or its first fault, and adds the line of each.
fn add_lines<R: TickRule, S: OrderSheet>(
    text: &mut String,
    book: &mut Book<R, S>,
    tape: &[u8],
) -> Result<Report, AllocError>
    requires { length tape.now ≤ 65535 }
    ensures { IfOk result (λ report. (ran : Ran R.TickRule S.OrderSheet tape.now 0 book.old report book.new) × (string_bytes text.new ≡ string_bytes text.old ++ lines 1 (replies (setting_of R.TickRule S.OrderSheet book.old) (state_of S.OrderSheet book.old) (map call_of ran.records)))) }
{
    let mut reader = Reader::new(tape);
    let mut counts = Counts::default();
    let fault = 'commands: loop {
        let place = reader.place();
        match advance(book, &mut reader) {
            Ok(Some(said)) => {
                counts.note(&said);
                add_line(text, counts.accepted + counts.refused, said)?;
            }
            Ok(None) => break None,
            Err(fault) => break Some(At { place, fault }),
        }
    };
    Ok(Report { counts, fault })
}

// The same of a tape of any length. One that is too long has no line, and its fault at the front.
fn play<R: TickRule, S: OrderSheet>(
    text: &mut String,
    book: &mut Book<R, S>,
    tape: &[u8],
) -> Result<Report, AllocError>
    ensures { IfOk result (λ report. (records : List Record) × Played (setting_of R.TickRule S.OrderSheet book.old) (state_of S.OrderSheet book.old) tape.now records report × (string_bytes text.new ≡ string_bytes text.old ++ lines 1 (replies (setting_of R.TickRule S.OrderSheet book.old) (state_of S.OrderSheet book.old) (map call_of records)))) }
{
    match tape_from(tape, 0) {
        Ok(tape) => add_lines(text, book, tape),
        Err(fault) => Ok(Report {
            counts: Counts::default(),
            fault: Some(At { place: 0, fault }),
        }),
    }
}

/// The listing of the opening of a new book by a tape: a line for each command, and a last line that
/// says how the run went.
pub fn listing<R: TickRule + Drop, S: OrderSheet + Drop>(
    heap: Global,
    rule: R,
    sheet: S,
    tape: &[u8],
) -> Result<String, AllocError>
    ensures { IfOk result (λ text. Listing (record { rule = rule_of R.TickRule rule; room = S.OrderSheet.room sheet }) tape.now (string_bytes text)) }
{
    let mut text = String::new(heap);
    let mut book = Book::new(rule, sheet);
    let report = play(&mut text, &mut book, tape)?;
    let closing = Closing(report);
    writeln!(text, "{closing}")?;
    Ok(text)
}
