//! Commands and their bytes, there and back.

ghost use Rattle.std.specs.Prelude.{◌<◌, length};

use kb_codec::{Command, decode, encode};
use std::alloc::Global;
use std::test::Fail;

/// A spelling of each kind, and of a kind whose last members may be missing, both.
fn spellings() -> [&'static [u8]; 24] {
    [
        b"\x02\x02k1\x00\x00\x00\x00",
        b"\x03\x02a1\x02k1USD\x01\x00",
        b"\x03\x02a1\x02k1EUR\x1f\x01",
        b"\x04\x02a1\x02k1\x02b1\x02s1\x05Basic\x04\x07DEFAULT\x01\x00\x00\x4d\x50",
        b"\x04\x02a1\x02k1\x02b1\x02s1\x05Basic\x00\x07DEFAULT\x00",
        b"\x05\x02a1\x02k1\x02s1\x04Gold\x09\x07DEFAULT\x00",
        b"\x06\x02a1\x02k1\x02s1\x01\x00\x00\x2a\xcd",
        b"\x07\x02a1\x02k2\x02s1",
        b"\x08\x02a1\x02k1\x02b1\x00",
        b"\x09\x02a1\x02k1\x02b1\x01\x00\x00\xb9\x79",
        b"\x0a\x02a1\x02k1\x02\x02s1\x03svc\x03OFF\x00\x05",
        b"\x0a\x02a1\x02k1\x00\x02a1\x03svc\x02ON\x01\x00\x00\x4d\x50\x00",
        b"\x0b\x02a1\x02k1\x00",
        b"\x0c\x02a1\x02k1\x00\x00\x00\x00\x00\x00\x03\xe8",
        b"\x0d\x02a1\x02k1\x00\x00\x00\xe8\xd4\xa5\x10\x00",
        b"\x0e\x02a1\x02k1\x02p1\x00\x00\x00\x01\x00",
        b"\x0e\x02a1\x02k1\x02p1\xff\xff\xff\xff\x01\x00\x00\x00\x00\x00\x00\x00\x01",
        b"\x0f\x02a1\x02k1\x02r1\x02p1\x00\x00\x00\x00\x00\x00\x00\x01",
        b"\x10\x02a1\x02k1\x02c1\x02p1\x00\x00\x00\x00\x00\x00\x00\x01",
        b"\x11\x02a1\x02k1\x01",
        b"\x12\x02a1\x00\x00\x00\x01",
        b"\x13\x02a1\x02p1\x00",
        b"\x13\x02a1\x02p1\x04",
        b"\x14\x02a1",
    ]
}

/// The command of some bytes, if they are of one.
pub(crate) fn read(alloc: Global, bytes: &[u8]) -> Result<Option<Command>, Fail> {
    Ok(decode(alloc, bytes)?)
}

/// Whether bytes are a command.
pub(crate) fn is_command(alloc: Global, bytes: &[u8]) -> Result<bool, Fail> {
    Ok(read(alloc, bytes)?.is_some())
}

/// Whether bytes are a command that is spelled so; none if they are no command.
pub(crate) fn is_spelled_so(alloc: Global, bytes: &[u8]) -> Result<Option<bool>, Fail> {
    match read(alloc, bytes)? {
        None => Ok(None),
        Some(command) => Ok(Some(encode(alloc, &command)?.as_slice() == bytes)),
    }
}

#[test]
fn there_and_back(rt: HostRuntime) -> Result<(), Fail> {
    for bytes in spellings() {
        assert_eq!(rt; is_spelled_so(rt.alloc(), bytes)?, Some(true));
    }
    Ok(())
}

#[test]
fn no_cut_is_a_command(rt: HostRuntime) -> Result<(), Fail> {
    for bytes in spellings() {
        for end in 0..bytes.len() {
            assert!(rt; !is_command(rt.alloc(), &bytes[..end])?);
        }
    }
    Ok(())
}

#[test]
fn nothing_may_follow(rt: HostRuntime) -> Result<(), Fail> {
    for bytes in spellings() {
        for byte in 0..=255u8 {
            let mut longer = bytes.to_vec(rt.alloc())?;
            longer.push(byte)?;
            assert!(rt; !is_command(rt.alloc(), &longer)?);
        }
    }
    Ok(())
}

/// Whether bytes, with another one at a place, are no command, or one that is spelled so.
pub(crate) fn is_read_as_spelled(
    alloc: Global,
    bytes: &[u8],
    place: usize,
    byte: u8,
) -> Result<bool, Fail>
    requires { place < length bytes.now }
{
    let mut changed = bytes.to_vec(alloc)?;
    changed[place] = byte;
    Ok(is_spelled_so(alloc, &changed)?.unwrap_or(true))
}

#[test]
fn a_changed_byte_is_read_as_spelled(rt: HostRuntime) -> Result<(), Fail> {
    for bytes in spellings() {
        for place in 0..bytes.len() {
            for byte in 0..=255u8 {
                assert!(rt; is_read_as_spelled(rt.alloc(), bytes, place, byte)?);
            }
        }
    }
    Ok(())
}

/// How many strings of three bytes that begin with this one are a command.
fn commands_of_three_bytes(alloc: Global, first: u8) -> Result<u32, Fail> {
    let mut count = 0u32;
    for second in 0..=255u8 {
        for third in 0..=255u8 {
            if is_command(alloc, &[first, second, third])? {
                count = count.saturating_add(1);
            }
        }
    }
    Ok(count)
}

/// Whether the strings of three bytes that begin with one of these are commands as they should be: there are
/// those of kind 20, for each account of one letter.
fn are_judged_right(alloc: Global, from: u8, to: u8) -> Result<bool, Fail> {
    for first in from..=to {
        let count = if first == 20 { 65 } else { 0 };
        if commands_of_three_bytes(alloc, first)? != count {
            return Ok(false);
        }
    }
    Ok(true)
}

#[test]
fn no_command_of_one_or_two_bytes(rt: HostRuntime) -> Result<(), Fail> {
    for first in 0..=255u8 {
        assert!(rt; !is_command(rt.alloc(), &[first])?);
        for second in 0..=255u8 {
            assert!(rt; !is_command(rt.alloc(), &[first, second])?);
        }
    }
    Ok(())
}

#[test]
fn three_bytes_from_0_on(rt: HostRuntime) -> Result<(), Fail> {
    assert!(rt; are_judged_right(rt.alloc(), 0, 63)?);
    Ok(())
}

#[test]
fn three_bytes_from_64_on(rt: HostRuntime) -> Result<(), Fail> {
    assert!(rt; are_judged_right(rt.alloc(), 64, 127)?);
    Ok(())
}

#[test]
fn three_bytes_from_128_on(rt: HostRuntime) -> Result<(), Fail> {
    assert!(rt; are_judged_right(rt.alloc(), 128, 191)?);
    Ok(())
}

#[test]
fn three_bytes_from_192_on(rt: HostRuntime) -> Result<(), Fail> {
    assert!(rt; are_judged_right(rt.alloc(), 192, 255)?);
    Ok(())
}
