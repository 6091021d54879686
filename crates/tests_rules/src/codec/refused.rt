//! Bytes that are no command.

use crate::codec::bytes::is_command;
use std::alloc::Global;
use std::test::Fail;

/// Bytes that are no command, and why not.
fn rows() -> [(&'static str, &'static [u8]); 31] {
    [
        ("no byte", b""),
        ("kind 0", b"\x00\x02a1\x02k1"),
        ("kind 21", b"\x15\x02a1\x02k1"),
        ("kind 255", b"\xff\x02a1\x02k1"),
        ("an account of no byte", b"\x14\x00"),
        ("a key of no byte", b"\x07\x02a1\x00\x02s1"),
        ("a blank in a name", b"\x14\x02a "),
        ("a byte that isn't ASCII", b"\x14\x02a\xe4"),
        ("a currency in lower case", b"\x03\x02a1\x02k1usd\x01\x00"),
        ("cycle day 0", b"\x03\x02a1\x02k1USD\x00\x00"),
        ("cycle day 32", b"\x03\x02a1\x02k1USD\x20\x00"),
        ("automatic payment 2", b"\x03\x02a1\x02k1USD\x01\x02"),
        (
            "the day before the first",
            b"\x0b\x02a1\x02k1\x01\x00\x00\x2a\xcc",
        ),
        (
            "the day behind the last",
            b"\x0b\x02a1\x02k1\x01\x00\x00\xb9\x7a",
        ),
        (
            "a day with its lowest byte first",
            b"\x0b\x02a1\x02k1\x01\x50\x4d\x00\x00",
        ),
        ("a day behind a 2", b"\x0b\x02a1\x02k1\x02\x00\x00\x4d\x50"),
        ("a missing day as 2", b"\x0b\x02a1\x02k1\x02"),
        (
            "a missing day with a day",
            b"\x0b\x02a1\x02k1\x00\x00\x00\x4d\x50",
        ),
        (
            "period 10",
            b"\x05\x02a1\x02k1\x02s1\x04Gold\x0a\x07DEFAULT\x00",
        ),
        ("no list", b"\x05\x02a1\x02k1\x02s1\x04Gold\x04\x00\x00"),
        (
            "scope 3",
            b"\x0a\x02a1\x02k1\x03\x02s1\x03svc\x03OFF\x00\x05",
        ),
        (
            "flags 8",
            b"\x0a\x02a1\x02k1\x02\x02s1\x03svc\x03OFF\x00\x08",
        ),
        ("status 5", b"\x13\x02a1\x02p1\x05"),
        (
            "amount 0",
            b"\x0c\x02a1\x02k1\x00\x00\x00\x00\x00\x00\x00\x00",
        ),
        (
            "amount 10^12 + 1",
            b"\x0c\x02a1\x02k1\x00\x00\x00\xe8\xd4\xa5\x10\x01",
        ),
        (
            "amount 2^63",
            b"\x0c\x02a1\x02k1\x80\x00\x00\x00\x00\x00\x00\x00",
        ),
        ("invoice 0", b"\x12\x02a1\x00\x00\x00\x00"),
        ("a text one byte short", b"\x02\x02k1\x00\x00\x00\x02#"),
        ("a text one byte long", b"\x02\x02k1\x00\x00\x00\x01# "),
        ("a text that isn't TOML", b"\x02\x02k1\x00\x00\x00\x01="),
        (
            "an overdue text as a catalog",
            b"\x01\x02k1\x00\x00\x00\x00",
        ),
    ]
}

#[test]
fn no_command(rt: HostRuntime) -> Result<(), Fail> {
    for (row, bytes) in rows() {
        assert!(rt; !is_command(rt.alloc(), bytes)?, "{row}");
    }
    Ok(())
}

/// A command of an account whose name has so many letters.
fn of_an_account(alloc: Global, count: u8) -> Result<bool, Fail> {
    let mut bytes = vec![in alloc; 20, count]?;
    for _ in 0..count {
        bytes.push(b'a')?;
    }
    is_command(alloc, &bytes)
}

#[test]
fn names_have_64_bytes_at_most(rt: HostRuntime) -> Result<(), Fail> {
    for count in 0..=255u8 {
        assert_eq!(rt;
            of_an_account(rt.alloc(), count)?,
            (1..=64).contains(&count),
            "{count}"
        );
    }
    Ok(())
}
