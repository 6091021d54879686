//! Commands with a text.

use crate::codec::bytes::{is_command, is_read_as_spelled, is_spelled_so};
use kb_catalog_text::{OVERDUE, SHOP};
use kb_samples::CLUB;
use std::alloc::Global;
use std::test::Fail;

/// A kind, the key k1 and a text.
fn with_text(alloc: Global, kind: u8, text: &[u8]) -> Result<Vec<u8>, Fail> {
    let mut bytes = vec![in alloc; kind, 2, b'k', b'1']?;
    bytes.extend_from_slice(
        &u32::try_from(text.len())
            .ok()
            .ok_or("a short text")?
            .to_be_bytes(),
    )?;
    bytes.extend_from_slice(text)?;
    Ok(bytes)
}

#[test]
fn texts_there_and_back(rt: HostRuntime) -> Result<(), Fail> {
    for (kind, text) in [(1, SHOP), (1, CLUB), (2, OVERDUE), (2, ""), (2, "# none")] {
        let bytes = with_text(rt.alloc(), kind, text.as_bytes())?;
        assert_eq!(rt; is_spelled_so(rt.alloc(), &bytes)?, Some(true), "{kind}");
    }
    Ok(())
}

#[test]
fn texts_that_are_cut_or_changed(rt: HostRuntime) -> Result<(), Fail> {
    for (kind, text) in [(1, SHOP), (2, OVERDUE)] {
        let bytes = with_text(rt.alloc(), kind, text.as_bytes())?;
        for place in 0..bytes.len() {
            assert!(rt; !is_command(rt.alloc(), &bytes[..place])?);
            assert!(rt; is_read_as_spelled(rt.alloc(), &bytes, place, b'1')?);
        }
    }
    Ok(())
}

#[test]
fn texts_that_are_refused(rt: HostRuntime) -> Result<(), Fail> {
    for (kind, text) in [
        (1, OVERDUE),
        (2, SHOP),
        (1, ""),
        (1, "="),
        (2, "["),
        (3, SHOP),
    ] {
        let bytes = with_text(rt.alloc(), kind, text.as_bytes())?;
        assert!(rt; !is_command(rt.alloc(), &bytes)?, "{kind}");
    }
    Ok(())
}
