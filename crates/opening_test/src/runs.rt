//! All commands from a place on.

use crate::tapes::{JUNK, WHOLE, entered};
use book::Book;
use calls::{Answer, Call};
use opening::{At, Counts, Report, run};
use sheets::ArrivalSheet;
use std::test::Fail;
use tape::TapeFault;
use ticks::Flat;

fn ends(accepted: usize, refused: usize, fault: Option<At<TapeFault>>) -> Report {
    Report {
        counts: Counts { accepted, refused },
        fault,
    }
}

// The whole tape, and then its parts from several places on.
#[test]
fn places(rt: HostRuntime) -> Result<(), Fail> {
    let rows = &mut [JUNK; 4];
    let mut book = Book::new(Flat::new(1_000, 1_000, 1_000_000)?, ArrivalSheet::new(rows));
    let table = [
        (9, Ok(ends(0, 4, None))),
        (0, Ok(ends(4, 1, None))),
        (51, Ok(ends(0, 0, None))),
        (52, Err(TapeFault::OutOfBounds)),
        (28, Ok(ends(0, 3, None))),
        (0, Ok(ends(1, 4, None))),
    ];
    for (place, report) in table {
        assert_eq!(rt; run(&mut book, &WHOLE, place), report);
    }
    Ok(())
}

// At a fault a run ends, and what was done before stands.
#[test]
fn cut(rt: HostRuntime) -> Result<(), Fail> {
    let rows = &mut [JUNK; 4];
    let mut book = Book::new(Flat::new(1_000, 1_000, 1_000_000)?, ArrivalSheet::new(rows));
    let at = |place, fault| Some(At { place, fault });
    assert_eq!(rt;
        run(&mut book, &WHOLE[..27], 0),
        Ok(ends(1, 0, at(9, TapeFault::Truncated)))
    );
    assert_eq!(rt;
        run(&mut book, &WHOLE[..40], 9),
        Ok(ends(1, 1, at(33, TapeFault::Truncated)))
    );
    let number = 1;
    assert_eq!(rt;
        book.call(Call::Show { number }),
        Ok(Answer::Shown(Some(entered(100))))
    );
    let mut spoiled = WHOLE;
    spoiled[46] = 0x51;
    assert_eq!(rt;
        run(&mut book, &spoiled, 33),
        Ok(ends(1, 0, at(46, TapeFault::UnknownCommand)))
    );
    assert_eq!(rt;
        book.call(Call::Show { number }),
        Ok(Answer::Shown(Some(entered(10))))
    );
    assert_eq!(rt;
        run(&mut book, &spoiled, 46),
        Ok(ends(0, 0, at(46, TapeFault::UnknownCommand)))
    );
    Ok(())
}

// A tape that is too long is not run at all; the longest is.
#[test]
fn longest(rt: HostRuntime) -> Result<(), Fail> {
    let rows = &mut [JUNK; 4];
    let mut book = Book::new(Flat::new(1_000, 1_000, 1_000_000)?, ArrivalSheet::new(rows));
    let over = vec![in rt.alloc(); 0x58u8; 65_536]?;
    let most = vec![in rt.alloc(); 0x58u8; 65_535]?;
    let (over, most) = (over.as_slice(), most.as_slice());
    let cut = At {
        place: 65_531,
        fault: TapeFault::Truncated,
    };
    let table = [
        (over, 0, Err(TapeFault::OutOfBounds)),
        (over, 65_536, Err(TapeFault::OutOfBounds)),
        (most, 0, Ok(ends(0, 13_107, None))),
        (most, 1, Ok(ends(0, 13_106, Some(cut)))),
    ];
    for (tape, place, report) in table {
        assert_eq!(rt; run(&mut book, tape, place), report);
    }
    Ok(())
}
