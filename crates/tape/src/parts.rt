// Parts of a tape, handed out without a copy. Each takes the caller's tape and a place on it, the two
// operands of one question.
ghost use Rattle.std.specs.Prelude.{◌≡◌, ◌≤◌, ◌&&◌, length, is_ok, IfOk, IfErr, nat_le};
ghost use Rattle.tape.specs.declared.fault.TapeFault.TheVariants.{OutOfBounds};
ghost use Rattle.tape.specs.Views.{RestOf, ReadAt, CommandPart};

use crate::command::Command;
use crate::decode::read;
use crate::fault::TapeFault;

/// The most bytes that a tape has.
pub const MAX_TAPE: usize = 65_535;

/// The tape from a starting place on.
pub fn tape_from<'a>(tape: &'a [u8], place: usize) -> Result<&'a [u8], TapeFault>
    ensures test { is_ok result ≡ nat_le (length tape.now) 65535 && nat_le place (length tape.now) }
    ensures rest { IfOk result (λ x. RestOf tape.entry place x) }
    ensures fault { IfErr result (λ f. f ≡ OutOfBounds) }
{
    if tape.len() > MAX_TAPE || place > tape.len() {
        return Err(TapeFault::OutOfBounds);
    }
    Ok(&tape[place..])
}

/// The command at a place of the tape, and the place behind it. Past the tape's end there is none.
#[tactic(auto, using(crate::proofs::Places::behind))]
pub fn read_at<'a>(tape: &'a [u8], place: usize) -> Result<(Command<'a>, usize), TapeFault>
    ensures { ReadAt tape.entry place result }
{
    if place > tape.len() {
        return Err(TapeFault::Truncated);
    }
    let (command, rest) = read(&tape[place..])?;
    Ok((command, tape.len() - rest.len()))
}

/// The part of the tape that the command at a place takes up.
#[tactic(auto, using(crate::proofs::Places::part_is))]
pub fn command_part<'a>(tape: &'a [u8], place: usize) -> Result<&'a [u8], TapeFault>
    ensures { CommandPart tape.entry place result }
{
    let (_, end) = read_at(tape, place)?;
    Ok(&tape[place..end])
}
