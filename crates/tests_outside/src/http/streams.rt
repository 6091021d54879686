//! Streams of bytes: the requests that they give and how they end, whole and cut at each byte.

use kb_http::{Allow, Conn, HttpNext, Route};
use kb_ports::{PairLink, Sips};
use std::alloc::{AllocError, Global};
use std::test::Fail;

/// The peer has closed with no byte of a request, or within one, or a read has failed.
const CLOSED: u32 = 1;

const CUT: u32 = 2;

const FAULT: u32 = 3;

/// A request: a number for its place, the bytes of its body, and whether the connection closes.
type Told = (u32, usize, bool);

const COMMANDS: u32 = 11;

const JANITOR: u32 = 12;

const ACCOUNT: u32 = 13;

const INVOICE: u32 = 14;

const PAYMENT: u32 = 15;

const SUBSCRIPTION: u32 = 16;

const GET_ALONE: u32 = 17;

const POST_ALONE: u32 = 18;

const UNKNOWN: u32 = 19;

/// The bytes of a stream, the requests that it gives, and how it ends: a status, or one of the numbers above.
const ROWS: [(&[u8], &[Told], u32); 46] = [
    (b"", &[], CLOSED),
    (
        b"GET /accounts/a1 HTTP/1.1\r\n\r\n",
        &[(ACCOUNT, 0, false)],
        CLOSED,
    ),
    (
        b"GET /accounts/a1 HTTP/1.1\n\n",
        &[(ACCOUNT, 0, false)],
        CLOSED,
    ),
    (
        b"\r\n\r\nGET /accounts/a1 HTTP/1.1\r\n\r\n",
        &[(ACCOUNT, 0, false)],
        CLOSED,
    ),
    (
        b"GET /accounts/a1 HTTP/1.0\r\n\r\n",
        &[(ACCOUNT, 0, true)],
        CLOSED,
    ),
    (
        b"GET /accounts/a1/invoices/12?x=/y HTTP/1.1\r\n\r\n",
        &[(INVOICE, 0, false)],
        CLOSED,
    ),
    (
        b"GET /accounts/a1/invoices/4294967295 HTTP/1.1\r\n\r\n",
        &[(INVOICE, 0, false)],
        CLOSED,
    ),
    (
        b"GET /accounts/a1/invoices/4294967296 HTTP/1.1\r\n\r\n",
        &[(UNKNOWN, 0, false)],
        CLOSED,
    ),
    (
        b"GET /accounts/a1/invoices/01 HTTP/1.1\r\n\r\n",
        &[(UNKNOWN, 0, false)],
        CLOSED,
    ),
    (
        b"GET /accounts/a1/invoices/0 HTTP/1.1\r\n\r\n",
        &[(UNKNOWN, 0, false)],
        CLOSED,
    ),
    (
        b"GET /accounts/a1/payments/p-1 HTTP/1.1\r\n\r\n",
        &[(PAYMENT, 0, false)],
        CLOSED,
    ),
    (
        b"GET /accounts/a1/subscriptions/s1 HTTP/1.1\r\n\r\n",
        &[(SUBSCRIPTION, 0, false)],
        CLOSED,
    ),
    (
        b"GET /accounts//s1 HTTP/1.1\r\n\r\n",
        &[(UNKNOWN, 0, false)],
        CLOSED,
    ),
    (
        b"GET /accounts/a1/ HTTP/1.1\r\n\r\n",
        &[(UNKNOWN, 0, false)],
        CLOSED,
    ),
    (
        b"GET //accounts/a1 HTTP/1.1\r\n\r\n",
        &[(UNKNOWN, 0, false)],
        CLOSED,
    ),
    (
        b"GET accounts/a1 HTTP/1.1\r\n\r\n",
        &[(UNKNOWN, 0, false)],
        CLOSED,
    ),
    (
        b"GET /accounts/a1/payments/p/1 HTTP/1.1\r\n\r\n",
        &[(UNKNOWN, 0, false)],
        CLOSED,
    ),
    (
        b"GET /accounts/a123456789012345678901234567890123456789012345678901234567890123 HTTP/1.1\r\n\r\n",
        &[(ACCOUNT, 0, false)],
        CLOSED,
    ),
    (
        b"GET /accounts/a1234567890123456789012345678901234567890123456789012345678901234 HTTP/1.1\r\n\r\n",
        &[(UNKNOWN, 0, false)],
        CLOSED,
    ),
    (
        b"HEAD /accounts/a1 HTTP/1.1\r\n\r\n",
        &[(GET_ALONE, 0, false)],
        CLOSED,
    ),
    (
        b"GET /commands HTTP/1.1\r\n\r\n",
        &[(POST_ALONE, 0, false)],
        CLOSED,
    ),
    (
        b"PUT /nowhere HTTP/1.1\r\n\r\n",
        &[(UNKNOWN, 0, false)],
        CLOSED,
    ),
    (
        b"POST /commands HTTP/1.1\r\nContent-Length: 5\r\n\r\nhello",
        &[(COMMANDS, 5, false)],
        CLOSED,
    ),
    (
        b"POST /commands HTTP/1.1\r\ncontent-LENGTH:\t05 \r\n\r\nhello",
        &[(COMMANDS, 5, false)],
        CLOSED,
    ),
    (
        b"POST /commands HTTP/1.1\r\nContent-Length: 5\r\n\r\nhelloPOST /janitor HTTP/1.1\r\nContent-Length: 0\r\n\r\n",
        &[(COMMANDS, 5, false), (JANITOR, 0, false)],
        CLOSED,
    ),
    (
        b"GET /accounts/a1 HTTP/1.1\r\nContent-Length: 3\r\n\r\nabcGET /accounts/a2 HTTP/1.1\r\nConnection: close\r\n\r\n",
        &[(ACCOUNT, 3, false), (ACCOUNT, 0, true)],
        CLOSED,
    ),
    (
        b"GET /accounts/a1 HTTP/1.1\r\nConnection: keep-alive, \tCLOSE ,x\r\n\r\n",
        &[(ACCOUNT, 0, true)],
        CLOSED,
    ),
    (
        b"GET /accounts/a1 HTTP/1.1\r\nconnection: closed\r\nX: close\r\nCONNECTION: close\r\n\r\n",
        &[(ACCOUNT, 0, true)],
        CLOSED,
    ),
    (
        b"GET /accounts/a1 HTTP/1.1\r\nconnection: closed\r\nX: close\r\n\r\n",
        &[(ACCOUNT, 0, false)],
        CLOSED,
    ),
    (b"POST /commands HTTP/1.1\r\n\r\n", &[], 411),
    (
        b"GET /accounts/a1 HTTP/1.1\r\nTransfer-Encoding: chunked\r\n\r\n",
        &[],
        411,
    ),
    (
        b"POST /commands HTTP/1.1\r\nContent-Length: 65537\r\nTransfer-Encoding: x\r\n\r\n",
        &[],
        411,
    ),
    (
        b"POST /commands HTTP/1.1\r\nContent-Length: 65537\r\n\r\n",
        &[],
        413,
    ),
    (
        b"POST /commands HTTP/1.1\r\nContent-Length: 99999999999999999999999\r\n\r\n",
        &[],
        413,
    ),
    (
        b"POST /commands HTTP/1.1\r\nContent-Length: +5\r\n\r\nhello",
        &[],
        400,
    ),
    (
        b"POST /commands HTTP/1.1\r\nContent-Length: 5, 5\r\n\r\nhello",
        &[],
        400,
    ),
    (
        b"POST /commands HTTP/1.1\r\nContent-Length:\r\n\r\nhello",
        &[],
        400,
    ),
    (
        b"POST /commands HTTP/1.1\r\nContent-Length: 5\r\nContent-Length: 5\r\n\r\nhello",
        &[],
        400,
    ),
    (b"G\0ET /accounts/a1 HTTP/1.1\r\n\r\n", &[], 400),
    (b"GET /accounts/a1 HTTP/2.0\r\n\r\n", &[], 400),
    (b"GET /accounts/a1 HTTP/1.1\r\n folded: x\r\n\r\n", &[], 400),
    (b"\0", &[], 400),
    (b"\r\n", &[], CUT),
    (b"GET /accounts/a1 HTTP/1.1\r\n", &[], CUT),
    (
        b"POST /commands HTTP/1.1\r\nContent-Length: 5\r\n\r\nhell",
        &[],
        CUT,
    ),
    (
        b"POST /commands HTTP/1.1\r\nContent-Length: 5\r\n\r\nhelloG",
        &[(COMMANDS, 5, false)],
        CUT,
    ),
];

#[test]
fn however_they_are_cut(rt: HostRuntime) -> Result<(), Fail> {
    let alloc = rt.alloc();
    for (row, (bytes, requests, end)) in ROWS.iter().enumerate() {
        for most in 1..=bytes.len().saturating_add(1) {
            let told = run(alloc, link(alloc, bytes, 0, most)?)?;
            assert_eq!(rt;
                (told.0.as_slice(), told.1),
                (*requests, *end),
                "row {row}, {most} bytes a read"
            );
        }
    }
    Ok(())
}

#[test]
fn a_body_is_just_its_bytes(rt: HostRuntime) -> Result<(), Fail> {
    let alloc = rt.alloc();
    let bytes = b"POST /commands HTTP/1.1\r\nContent-Length: 2\r\n\r\n{}GET";
    let mut conn = Conn::new(alloc, link(alloc, bytes, 0, 4096)?);
    let HttpNext::Request(request) = conn.next(alloc) else {
        return Err("a request".into());
    };
    assert_eq!(rt; request.body.as_slice(), b"{}".as_slice());
    Ok(())
}

#[test]
fn a_read_fails_in_the_middle_of_a_body(rt: HostRuntime) -> Result<(), Fail> {
    let alloc = rt.alloc();
    let bytes = b"POST /commands HTTP/1.1\r\nContent-Length: 5\r\n\r\nhello";
    // The number of the read that fails: of each byte of the request, and behind it.
    for failing in 1..=bytes.len().saturating_add(1) {
        let told = run(alloc, link(alloc, bytes, failing as u64, 1)?)?;
        let given = usize::from(failing > bytes.len());
        assert_eq!(rt;
            (told.0.len(), told.1),
            (given, FAULT),
            "read {failing} fails"
        );
    }
    Ok(())
}

#[test]
fn long_heads(rt: HostRuntime) -> Result<(), Fail> {
    let alloc = rt.alloc();
    // How many fields, how many bytes in all, and how the stream ends.
    for (fields, size, end) in [
        (1, 16_384, CLOSED),
        (1, 16_385, 431),
        (64, 16_384, CLOSED),
        (64, 4_000, CLOSED),
        (65, 4_000, 431),
        (65, 16_384, 431),
        (0, 20_000, 431),
    ] {
        let bytes = head_of(alloc, fields, size)?;
        for most in [1, 4096] {
            let told = run(alloc, link(alloc, &bytes, 0, most)?)?;
            let given = usize::from(end == CLOSED);
            assert_eq!(rt;
                (told.0.len(), told.1),
                (given, end),
                "{fields} fields, {size} bytes, {most} a read"
            );
        }
    }
    Ok(())
}

/// A head with so many fields and bytes; with no field, a part of a head.
fn head_of(alloc: Global, fields: usize, size: usize) -> Result<Vec<u8>, AllocError> {
    let mut bytes = Vec::new(alloc);
    if fields == 0 {
        bytes.extend_from_slice(b"GET /")?;
        push_many(&mut bytes, b'a', size)?;
        return Ok(bytes);
    }
    bytes.extend_from_slice(b"GET /accounts/a1 HTTP/1.1\r\n")?;
    for _ in 1..fields {
        bytes.extend_from_slice(b"a:b\r\n")?;
    }
    bytes.extend_from_slice(b"c:")?;
    push_many(&mut bytes, b'd', size.saturating_sub(4))?;
    bytes.extend_from_slice(b"\r\n\r\n")?;
    Ok(bytes)
}

/// Adds a byte until there are so many.
fn push_many(bytes: &mut Vec<u8>, byte: u8, size: usize) -> Result<(), AllocError> {
    for _ in bytes.len()..size {
        bytes.push(byte)?;
    }
    Ok(())
}

#[test]
fn the_last_of_ten_thousand_closes(rt: HostRuntime) -> Result<(), Fail> {
    let alloc = rt.alloc();
    let mut bytes = Vec::new(alloc);
    for _ in 0..10_000 {
        bytes.extend_from_slice(b"GET / HTTP/1.1\n\n")?;
    }
    let mut conn = Conn::new(alloc, link(alloc, &bytes, 0, 4096)?);
    let mut first = 0;
    for number in 1..=10_000 {
        if let HttpNext::Request(request) = conn.next(alloc)
            && request.close
            && first == 0
        {
            first = number;
        }
    }
    assert_eq!(rt; first, 10_000);
    Ok(())
}

/// A link that gives at most so many of these bytes a read, of which one fails; none, if its number is 0.
fn link(
    alloc: Global,
    bytes: &[u8],
    failing: u64,
    most: usize,
) -> Result<Sips<PairLink>, AllocError> {
    let bytes = bytes.to_vec(alloc)?;
    let failing = [failing].to_vec(alloc)?;
    let inner = PairLink::new(alloc, bytes, failing, Vec::new(alloc));
    let most = most.max(1);
    Ok(Sips { inner, most })
}

/// The requests of a link, and what the connection tells then, again and again.
fn run(alloc: Global, link: Sips<PairLink>) -> Result<(Vec<Told>, u32), AllocError> {
    let mut conn = Conn::new(alloc, link);
    let mut requests = Vec::new(alloc);
    for _ in 0..5 {
        match conn.next(alloc) {
            HttpNext::Request(request) => {
                requests.push((place(request.route), request.body.len(), request.close))?;
            }
            end => {
                let first = number(&end);
                let again = number(&conn.next(alloc));
                return Ok((requests, if first == again { first } else { 0 }));
            }
        }
    }
    Ok((requests, 0))
}

fn number(end: &HttpNext) -> u32 {
    match end {
        HttpNext::Request(_) => 4,
        HttpNext::Refuse(status) => u32::from(*status),
        HttpNext::Closed => CLOSED,
        HttpNext::Cut => CUT,
        HttpNext::InputFault => FAULT,
        HttpNext::NoMemory => 5,
    }
}

fn place(route: Route) -> u32 {
    match route {
        Route::Commands => COMMANDS,
        Route::Janitor => JANITOR,
        Route::Account(_) => ACCOUNT,
        Route::Invoice(_, _) => INVOICE,
        Route::Payment(_, _) => PAYMENT,
        Route::Subscription(_, _) => SUBSCRIPTION,
        Route::NotAllowed(Allow::Get) => GET_ALONE,
        Route::NotAllowed(Allow::Post) => POST_ALONE,
        Route::Unknown => UNKNOWN,
    }
}
