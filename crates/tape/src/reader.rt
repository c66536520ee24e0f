// A reader that goes along a tape.
ghost use Rattle.std.specs.Prelude.{◌≡◌, ◌-◌, ◌≤◌, length};
ghost use Rattle.tape.specs.Views.{PartOf, Steps};

use crate::command::Command;
use crate::fault::TapeFault;
use crate::parts::read_at;

/// A tape, the place of the next command, and where the command before it began.
#[derive(Drop)]
pub struct Reader<'a> {
    tape: &'a [u8],
    place: usize,
    began: usize,
    ghost within: { place ≤ length tape.now },
    ghost behind: { began ≤ place },
}

impl<'a> Reader<'a> {
    /// A reader at the tape's front.
    pub fn new(tape: &'a [u8]) -> Reader<'a>
        ensures tape { result.tape ≡ tape.entry }
        ensures place { result.place ≡ 0 }
        ensures began { result.began ≡ 0 }
    {
        Reader {
            tape,
            place: 0,
            began: 0,
        }
    }

    /// Where the next command begins.
    pub fn place(&self) -> usize
        ensures { result ≡ self.now.place }
    {
        self.place
    }

    /// The bytes of the command just read: a part of the tape, empty before the first.
    pub fn just_read(&self) -> &'a [u8]
        ensures { PartOf self.now.tape self.now.began (self.now.place - self.now.began) result }
    {
        &self.tape[self.began..self.place]
    }

    /// The next command, or none at the tape's end. A fault leaves the reader in place.
    pub fn next(&mut self) -> Result<Option<Command<'a>>, TapeFault>
        ensures tape { self.new.tape ≡ self.old.tape }
        ensures steps { Steps self.old.tape self.old.place self.old.began result self.new.place self.new.began }
    {
        let (tape, began) = (self.tape, self.place);
        if began == tape.len() {
            return Ok(None);
        }
        let (command, place) = read_at(tape, began)?;
        *self = Reader { tape, place, began };
        Ok(Some(command))
    }
}
