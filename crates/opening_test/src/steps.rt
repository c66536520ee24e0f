//! One command at a place.

use crate::tapes::{JUNK, WHOLE, entered};
use book::Book;
use calls::{Answer, Call, Refusal};
use opening::{At, StepFault, step};
use sheets::PrioritySheet;
use std::test::Fail;
use tape::TapeFault;
use ticks::Flat;

// Each command of the tape in turn, and two again.
#[test]
fn commands(rt: HostRuntime) -> Result<(), Fail> {
    let (buys, offers) = (&mut [JUNK; 2], &mut [JUNK; 2]);
    let rule = Flat::new(1_000, 1_000, 1_000_000)?;
    let mut book = Book::new(rule, PrioritySheet::new(buys, offers));
    let refused = |place, refusal| {
        Err(StepFault::Book(At {
            place,
            fault: refusal,
        }))
    };
    let table = [
        (9, refused(9, Refusal::Shut)),
        (0, Ok(Answer::Started)),
        (0, refused(0, Refusal::AlreadyCalling)),
        (28, refused(28, Refusal::UnknownNumber)),
        (9, Ok(Answer::Entered(1))),
        (33, Ok(Answer::Amended(1))),
        (46, Ok(Answer::Withdrawn(10))),
        (46, refused(46, Refusal::UnknownNumber)),
        (9, Ok(Answer::Entered(2))),
    ];
    for (place, said) in table {
        assert_eq!(rt; step(&mut book, &WHOLE, place), said);
    }
    Ok(())
}

// A fault of the tape leaves the book as it was.
#[test]
fn faults(rt: HostRuntime) -> Result<(), Fail> {
    let (buys, offers) = (&mut [JUNK; 2], &mut [JUNK; 2]);
    let rule = Flat::new(1_000, 1_000, 1_000_000)?;
    let mut book = Book::new(rule, PrioritySheet::new(buys, offers));
    assert_eq!(rt; step(&mut book, &WHOLE, 0), Ok(Answer::Started));
    assert_eq!(rt; step(&mut book, &WHOLE, 9), Ok(Answer::Entered(1)));
    let long = vec![in rt.alloc(); 0x58u8; 65_536]?;
    let table: [(&[u8], usize, TapeFault, u8); 8] = [
        (long.as_slice(), 0, TapeFault::OutOfBounds, 1),
        (&WHOLE, 52, TapeFault::OutOfBounds, 1),
        (&[], 1, TapeFault::OutOfBounds, 1),
        (&WHOLE, 51, TapeFault::Truncated, 3),
        (&[], 0, TapeFault::Truncated, 3),
        (&WHOLE[..50], 46, TapeFault::Truncated, 3),
        (&WHOLE, 1, TapeFault::UnknownCommand, 2),
        (
            b"\x45\x43\x4C\x00\x00\x2E\xE0\x00\x00\x00\x64ACCT0001",
            0,
            TapeFault::UnlistedByte,
            4,
        ),
    ];
    for (tape, place, fault, number) in table {
        let fault = StepFault::Tape(At { place, fault });
        assert_eq!(rt; step(&mut book, tape, place), Err(fault));
        assert_eq!(rt; fault.number(), number);
    }
    let number = 1;
    assert_eq!(rt;
        book.call(Call::Show { number }),
        Ok(Answer::Shown(Some(entered(100))))
    );
    Ok(())
}
