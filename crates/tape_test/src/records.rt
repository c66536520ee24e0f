// Records beside the bytes that they are written as.
use market::{Kind, Side, Terms};
use std::process::Abort;
use std::test::Fail;
use tape::{Command, TapeFault, WriteFault, read, write};

/// Records, with the least and the greatest numbers among them, beside their bytes.
pub(crate) const RECORDS: [(Command<'static>, &[u8]); 8] = [
    (
        Command::Start {
            prior: 107_000,
            last: 0,
        },
        b"\x53\x00\x01\xA1\xF8\x00\x00\x00\x00",
    ),
    (
        Command::Start {
            prior: 0,
            last: u32::MAX,
        },
        b"\x53\x00\x00\x00\x00\xFF\xFF\xFF\xFF",
    ),
    (
        Command::Enter(Terms {
            side: Side::Buy,
            kind: Kind::Limit,
            price: 1_000_000_000,
            quantity: 1_000_000,
            account: b"ACCT0001",
        }),
        b"\x45\x42\x4C\x3B\x9A\xCA\x00\x00\x0F\x42\x40ACCT0001",
    ),
    (
        Command::Enter(Terms {
            side: Side::Offer,
            kind: Kind::Market,
            price: 0,
            quantity: u32::MAX,
            account: b"\x00\x01\x7F\x80\xFF\x45\x53\x58",
        }),
        b"\x45\x4F\x4D\x00\x00\x00\x00\xFF\xFF\xFF\xFF\x00\x01\x7F\x80\xFF\x45\x53\x58",
    ),
    (Command::Withdraw { number: 1 }, b"\x58\x00\x00\x00\x01"),
    (
        Command::Withdraw { number: u32::MAX },
        b"\x58\xFF\xFF\xFF\xFF",
    ),
    (
        Command::Amend {
            number: 2,
            price: 109_000,
            quantity: 80,
        },
        b"\x41\x00\x00\x00\x02\x00\x01\xA9\xC8\x00\x00\x00\x50",
    ),
    (
        Command::Amend {
            number: u32::MAX,
            price: u32::MAX,
            quantity: 0,
        },
        b"\x41\xFF\xFF\xFF\xFF\xFF\xFF\xFF\xFF\x00\x00\x00\x00",
    ),
];

#[test]
fn reads_each(rt: HostRuntime) -> Result<(), Fail> {
    for (record, bytes) in RECORDS {
        let (command, rest) = read(bytes)?;
        assert_eq!(rt; command, record);
        assert!(rt; rest.is_empty());
    }
    Ok(())
}

#[test]
fn writes_each_before_what_stays(rt: HostRuntime) -> Result<(), Fail> {
    for (record, bytes) in RECORDS {
        let mut out = [0xEEu8; 21];
        let width = write(&mut out, &record)?;
        assert!(rt; width == bytes.len() && width <= 19);
        assert_eq!(rt; &out[..width], bytes);
        assert!(rt; out[width..].iter().all(|&byte| byte == 0xEE));
        let (command, rest) = read(&out)?;
        assert_eq!(rt; command, record);
        assert!(rt; rest.len() == 21 - width);
    }
    Ok(())
}

#[test]
fn needs_the_whole_output(rt: HostRuntime) {
    for (record, bytes) in RECORDS {
        let mut out = [0xEEu8; 19];
        let width = bytes.len();
        assert!(rt; 0 < width && width <= 19);
        assert_eq!(rt;
            write(&mut out[..width - 1], &record),
            Err(WriteFault::ShortOutput)
        );
        assert_eq!(rt; out, [0xEE; 19]);
        assert!(rt; write(&mut out[..width], &record).is_ok());
    }
}

// An account that is not eight bytes is refused first, and nothing is written.
fn refuses_account(rt: &impl Abort, account: &[u8]) {
    let command = Command::Enter(Terms {
        side: Side::Buy,
        kind: Kind::Limit,
        price: 1,
        quantity: 1,
        account,
    });
    let mut out = [0xEEu8; 19];
    assert_eq!(rt; write(&mut out, &command), Err(WriteFault::AccountLength));
    assert_eq!(rt; out, [0xEE; 19]);
    assert_eq!(rt;
        write(&mut out[..0], &command),
        Err(WriteFault::AccountLength)
    );
}

#[test]
fn needs_eight_account_bytes(rt: HostRuntime) {
    let text = b"ACCT00012";
    for len in 0..10usize {
        if len != 8 {
            refuses_account(&rt, &text[..len]);
        }
    }
}

#[test]
fn numbers_of_faults(rt: HostRuntime) {
    assert_eq!(rt; TapeFault::OutOfBounds.number(), 1);
    assert_eq!(rt; TapeFault::UnknownCommand.number(), 2);
    assert_eq!(rt; TapeFault::Truncated.number(), 3);
    assert_eq!(rt; TapeFault::UnlistedByte.number(), 4);
    assert_eq!(rt; WriteFault::AccountLength.number(), 4);
    assert_eq!(rt; WriteFault::ShortOutput.number(), 14);
}
