// The listing of a tape.
ghost use Rattle.std.specs.Prelude.{◌≡◌, List, ◌++◌, IfOk, string_bytes, OnOk};
ghost use Rattle.tape.specs.Format.{Record};
ghost use Rattle.tape.specs.Views.{view};
ghost use Rattle.tape_list.specs.Listing.{Listing, Listed, Holds, line, lines};

use crate::end::End;
use crate::words::Words;
use std::alloc::{AllocError, Global};
use tape::{Command, Reader, tape_from};

// Adds the line of one command.
fn add_line(
    text: &mut String,
    count: usize,
    place: usize,
    command: Command<'_>,
) -> Result<(), AllocError>
    ensures { OnOk result (string_bytes text.new ≡ string_bytes text.old ++ line count place (view command.entry)) }
{
    let words = Words(command);
    writeln!(text, "{count} at {place} {words}")
}

// Adds a line for each command of the tape, up to its end or its first fault.
fn add_lines(text: &mut String, tape: &[u8]) -> Result<End, AllocError>
    ensures { IfOk result (λ end. (cs : List Record) × Holds tape.now cs end × (string_bytes text.new ≡ string_bytes text.old ++ lines 1 0 cs)) }
{
    let mut reader = Reader::new(tape);
    // the ordinal of each line, and at the end the number of commands
    let mut count = 0;
    let fault = 'commands: loop {
        let place = reader.place();
        match reader.next() {
            Ok(Some(command)) => {
                count += 1;
                add_line(text, count, place, command)?;
            }
            Ok(None) => break None,
            Err(fault) => break Some(fault),
        }
    };
    let place = reader.place();
    Ok(End {
        count,
        place,
        fault,
    })
}

// The same of a tape of any length. One that is too long has no line, and its fault at the front.
fn add_tape(text: &mut String, tape: &[u8]) -> Result<End, AllocError>
    ensures { IfOk result (λ end. (cs : List Record) × Listed tape.now cs end × (string_bytes text.new ≡ string_bytes text.old ++ lines 1 0 cs)) }
{
    match tape_from(tape, 0) {
        Ok(tape) => add_lines(text, tape),
        Err(fault) => Ok(End {
            count: 0,
            place: 0,
            fault: Some(fault),
        }),
    }
}

/// The listing of a tape: a line for each command, and a last line that says how the tape ends.
pub fn listing(heap: Global, tape: &[u8]) -> Result<String, AllocError>
    ensures { IfOk result (λ text. Listing tape.now (string_bytes text)) }
{
    let mut text = String::new(heap);
    let end = add_tape(&mut text, tape)?;
    writeln!(text, "{end}")?;
    Ok(text)
}
