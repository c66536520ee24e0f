// Damaged tapes, and tapes at the ends of their range.
use crate::records::RECORDS;
use std::test::Fail;
use tape::{Command, MAX_TAPE, Reader, TapeFault, command_part, read, tape_from};

#[test]
fn empty_tape(rt: HostRuntime) {
    assert_eq!(rt; read(&[]), Err(TapeFault::Truncated));
    assert_eq!(rt; command_part(&[], 0), Err(TapeFault::Truncated));
    let mut reader = Reader::new(&[]);
    assert_eq!(rt; reader.next(), Ok(None));
    assert!(rt; reader.place() == 0 && reader.just_read().is_empty());
}

#[test]
fn each_record_cut_at_each_byte(rt: HostRuntime) {
    for (_, whole) in RECORDS {
        for cut in 0..whole.len() {
            assert_eq!(rt; read(&whole[..cut]), Err(TapeFault::Truncated));
        }
    }
}

#[test]
fn unlisted_command_bytes(rt: HostRuntime) {
    for byte in 0..=255u8 {
        let listed = matches!(byte, 0x41 | 0x45 | 0x53 | 0x58);
        assert!(rt; matches!(read(&[byte]), Err(TapeFault::UnknownCommand)) != listed);
        assert!(rt; matches!(read(&[byte; 19]), Err(TapeFault::UnknownCommand)) != listed);
    }
}

#[test]
fn unlisted_side_and_kind_bytes(rt: HostRuntime) {
    let enter = *b"\x45\x42\x4C\x00\x00\x03\xE8\x00\x00\x00\x01ACCT0001";
    for byte in 0..=255u8 {
        let mut side = enter;
        side[1] = byte;
        let listed = matches!(byte, 0x42 | 0x4F);
        assert!(rt; matches!(read(&side), Err(TapeFault::UnlistedByte)) != listed);
        assert_eq!(rt; read(&side[..18]), Err(TapeFault::Truncated));
        let mut kind = enter;
        kind[2] = byte;
        let listed = matches!(byte, 0x4C | 0x4D);
        assert!(rt; matches!(read(&kind), Err(TapeFault::UnlistedByte)) != listed);
    }
}

#[test]
fn longest_tape(rt: HostRuntime) -> Result<(), Fail> {
    let most = vec![in rt.alloc(); 0x58u8; 65_535]?;
    let most = most.as_slice();
    assert!(rt; MAX_TAPE == 65_535);
    assert!(rt; tape_from(most, 0)?.len() == 65_535);
    assert!(rt; tape_from(most, 65_534)?.len() == 1);
    assert!(rt; tape_from(most, 65_535)?.is_empty());
    assert_eq!(rt; tape_from(most, 65_536), Err(TapeFault::OutOfBounds));
    let over = vec![in rt.alloc(); 0x58u8; 65_536]?;
    assert_eq!(rt; tape_from(over.as_slice(), 0), Err(TapeFault::OutOfBounds));
    assert_eq!(rt;
        tape_from(over.as_slice(), 65_536),
        Err(TapeFault::OutOfBounds)
    );
    let withdraw = Command::Withdraw {
        number: 0x5858_5858,
    };
    let mut reader = Reader::new(most);
    for _ in 0..13_107 {
        assert_eq!(rt; reader.next(), Ok(Some(withdraw)));
    }
    assert_eq!(rt; reader.next(), Ok(None));
    assert!(rt; reader.place() == 65_535);
    Ok(())
}

#[test]
fn reader_stays_at_a_fault(rt: HostRuntime) -> Result<(), Fail> {
    let tape = b"\x58\x00\x00\x00\x07\x41\x00\x00\x00\x01\x00\x00\x00\x02\x00\x00\x00\x03\x3F\x58";
    let mut reader = Reader::new(tape);
    assert!(rt; reader.just_read().is_empty());
    assert_eq!(rt; reader.next()?, Some(Command::Withdraw { number: 7 }));
    assert_eq!(rt; reader.just_read(), &tape[..5]);
    assert_eq!(rt;
        reader.next()?,
        Some(Command::Amend {
            number: 1,
            price: 2,
            quantity: 3,
        })
    );
    assert_eq!(rt; reader.just_read(), &tape[5..18]);
    for _ in 0..2 {
        assert_eq!(rt; reader.next(), Err(TapeFault::UnknownCommand));
        assert!(rt; reader.place() == 18);
        assert_eq!(rt; reader.just_read(), &tape[5..18]);
    }
    assert_eq!(rt; command_part(tape, 0)?, &tape[..5]);
    assert_eq!(rt; command_part(tape, 5)?, &tape[5..18]);
    assert_eq!(rt; command_part(tape, 18), Err(TapeFault::UnknownCommand));
    for place in 19..22 {
        assert_eq!(rt; command_part(tape, place), Err(TapeFault::Truncated));
    }
    Ok(())
}
