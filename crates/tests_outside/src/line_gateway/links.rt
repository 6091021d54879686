//! A gateway over a link in memory.

use crate::compare::same;
use crate::line_gateway::orders::{ASK, LOOK, order_of};
use kb_gateway::{Gateway, LineGateway, Seen, Told};
use kb_payment::Kind;
use kb_ports::{PairLink, Sips};
use std::alloc::{AllocError, Global};
use std::test::Fail;

/// What comes, how many of its bytes are read, and what it tells in answer to an order and to a look-up:
/// none, where the call fails.
const ANSWERS: [(&[u8], usize, Option<Told>, Option<Seen>); 22] = [
    (
        b"PROCESSED\n",
        10,
        Some(Told::Processed),
        Some(Seen::Told(Told::Processed)),
    ),
    (
        b"PENDING\n",
        8,
        Some(Told::Pending),
        Some(Seen::Told(Told::Pending)),
    ),
    (
        b"ERROR\n",
        6,
        Some(Told::Error),
        Some(Seen::Told(Told::Error)),
    ),
    (
        b"CANCELED\n",
        9,
        Some(Told::Canceled),
        Some(Seen::Told(Told::Canceled)),
    ),
    (
        b"UNDEFINED\n",
        10,
        Some(Told::Undefined),
        Some(Seen::Told(Told::Undefined)),
    ),
    (b"NOTSEEN\n", 8, None, Some(Seen::NotSeen)),
    (
        b"ERROR\nPROCESSED\n",
        6,
        Some(Told::Error),
        Some(Seen::Told(Told::Error)),
    ),
    (b"", 0, None, None),
    (b"\n", 1, None, None),
    (b"\nERROR\n", 1, None, None),
    (b"ERR", 3, None, None),
    (b"ERROR", 5, None, None),
    (b"PROCESSED", 9, None, None),
    (b"HELLO\n", 6, None, None),
    (b"pending\n", 8, None, None),
    (b" PENDING\n", 9, None, None),
    (b"PENDING \n", 9, None, None),
    (b"PENDING\r\n", 9, None, None),
    (b"PROCESSED\r\n", 10, None, None),
    (b"PENDING\0\n", 9, None, None),
    (b"ERROR PENDING\n", 10, None, None),
    (b"AAAAAAAAAAAAAAAAAAAAAAAAAAAAAAAAAAAAAAAA", 10, None, None),
];

#[test]
fn what_a_line_tells(rt: HostRuntime) -> Result<(), Fail> {
    let alloc = rt.alloc();
    let order = order_of(Kind::Purchase, 1250, b"USD")?;
    for (bytes, count, told, seen) in ANSWERS {
        let mut gateway = gateway_of(alloc, bytes, 0, 0)?;
        let answer = gateway.ask(&order).ok();
        let link = gateway.into_link().inner;
        same(
            &rt,
            &(answer, link.written(), link.left()),
            &(told, ASK, &bytes[count.min(bytes.len())..]),
            &bytes,
        );
        let mut gateway = gateway_of(alloc, bytes, 0, 0)?;
        let answer = gateway.look_up(&order).ok();
        let link = gateway.into_link().inner;
        same(
            &rt,
            &(answer, link.written(), link.left()),
            &(seen, LOOK, &bytes[count.min(bytes.len())..]),
            &bytes,
        );
    }
    Ok(())
}

/// The kind, the amount and the currency of an order, and the line that asks for it.
const ORDERS: [(Kind, u64, &[u8], &[u8]); 3] = [
    (
        Kind::Purchase,
        0,
        b"EUR",
        b"ASK 419057e9-e213-5cbe-8f20-63536fe96a2c PURCHASE 0 EUR\n",
    ),
    (
        Kind::Refund,
        1_000_000_000_000,
        b"USD",
        b"ASK 419057e9-e213-5cbe-8f20-63536fe96a2c REFUND 1000000000000 USD\n",
    ),
    (
        Kind::Chargeback,
        18_446_744_073_709_551_615,
        b"JPY",
        b"ASK 419057e9-e213-5cbe-8f20-63536fe96a2c CHARGEBACK 18446744073709551615 JPY\n",
    ),
];

#[test]
fn what_is_sent(rt: HostRuntime) -> Result<(), Fail> {
    let alloc = rt.alloc();
    for (kind, amount, currency, line) in ORDERS {
        let mut gateway = gateway_of(alloc, b"ERROR\n", 0, 0)?;
        let answer = gateway.ask(&order_of(kind, amount, currency)?);
        let link = gateway.into_link().inner;
        same(
            &rt,
            &(answer.ok(), link.written()),
            &(Some(Told::Error), line),
            &"",
        );
    }
    Ok(())
}

/// What comes, the number of the read and of the write that fails, how many of four calls are answered before
/// the others fail, and how many bytes are read and written then. A read takes a byte, and a write 16.
const CALLS: [(&[u8], u64, u64, u64, usize, usize); 12] = [
    (b"PENDING\nNOTSEEN\nERROR\nERROR\n", 0, 0, 4, 28, 202),
    (b"PENDING\nNOTSEEN\nERROR\n", 0, 0, 3, 22, 202),
    (b"PENDING\nNOTSEEN\nNOTSEEN\nERROR\n", 0, 0, 2, 24, 160),
    (b"PENDING\nNOTSEEN\n\nERROR\n", 0, 0, 2, 17, 160),
    (b"PENDING\nnotseen\nERROR\nERROR\n", 0, 0, 1, 16, 101),
    (b"PENDING\nNOTSEEN\nERROR\nERROR\n", 1, 0, 0, 0, 59),
    (b"PENDING\nNOTSEEN\nERROR\nERROR\n", 8, 0, 0, 7, 59),
    (b"PENDING\nNOTSEEN\nERROR\nERROR\n", 9, 0, 1, 8, 101),
    (b"PENDING\nNOTSEEN\nERROR\nERROR\n", 29, 0, 4, 28, 202),
    (b"PENDING\nNOTSEEN\nERROR\nERROR\n", 0, 1, 0, 0, 0),
    (b"PENDING\nNOTSEEN\nERROR\nERROR\n", 0, 4, 0, 0, 48),
    (b"PENDING\nNOTSEEN\nERROR\nERROR\n", 0, 6, 1, 8, 75),
];

#[test]
fn calls_one_after_another(rt: HostRuntime) -> Result<(), Fail> {
    let alloc = rt.alloc();
    let order = order_of(Kind::Purchase, 1250, b"USD")?;
    for (row, (bytes, read, write, answered, count, written)) in CALLS.iter().enumerate() {
        let mut gateway = gateway_of(alloc, bytes, *read, *write)?;
        let answers = [
            gateway.ask(&order).is_ok(),
            gateway.look_up(&order).is_ok(),
            gateway.ask(&order).is_ok(),
            gateway.look_up(&order).is_ok(),
        ];
        let faults = gateway.faults();
        let link = gateway.into_link().inner;
        same(
            &rt,
            &(answers, faults, link.left(), link.written().len()),
            &(
                [*answered > 0, *answered > 1, *answered > 2, *answered > 3],
                4_u64.saturating_sub(*answered),
                &bytes[(*count).min(bytes.len())..],
                *written,
            ),
            &row,
        );
    }
    Ok(())
}

/// A gateway over a link that gives these bytes and takes 16 a write. One read and one write fail; none, if
/// their numbers are 0.
fn gateway_of(
    alloc: Global,
    bytes: &[u8],
    read: u64,
    write: u64,
) -> Result<LineGateway<Sips<PairLink>>, AllocError> {
    let inner = PairLink::new(
        alloc,
        bytes.to_vec(alloc)?,
        [read].to_vec(alloc)?,
        [write].to_vec(alloc)?,
    );
    Ok(LineGateway::new(Sips { inner, most: 16 }))
}
