//! Responses, one of each status, and how they are sent.

use kb_http::{Allow, Conn, response_bytes};
use kb_ports::{PairLink, Sips};
use std::test::Fail;

/// The statuses that there are.
const STATUSES: [u16; 10] = [200, 400, 404, 405, 409, 411, 413, 431, 503, 507];

/// The status, whether the connection closes, the one method that is allowed, and the head.
const ROWS: [(u16, bool, Option<Allow>, &[u8]); 10] = [
    (
        200,
        false,
        None,
        b"HTTP/1.1 200 OK\r\nContent-Type: application/json\r\nContent-Length: 2\r\n\r\n",
    ),
    (
        400,
        true,
        None,
        b"HTTP/1.1 400 Bad Request\r\nContent-Type: application/json\r\nContent-Length: 2\r\nConnection: close\r\n\r\n",
    ),
    (
        404,
        false,
        None,
        b"HTTP/1.1 404 Not Found\r\nContent-Type: application/json\r\nContent-Length: 2\r\n\r\n",
    ),
    (
        405,
        true,
        Some(Allow::Get),
        b"HTTP/1.1 405 Method Not Allowed\r\nContent-Type: application/json\r\nContent-Length: 2\r\nAllow: GET\r\nConnection: close\r\n\r\n",
    ),
    (
        409,
        false,
        None,
        b"HTTP/1.1 409 Conflict\r\nContent-Type: application/json\r\nContent-Length: 2\r\n\r\n",
    ),
    (
        411,
        true,
        None,
        b"HTTP/1.1 411 Length Required\r\nContent-Type: application/json\r\nContent-Length: 2\r\nConnection: close\r\n\r\n",
    ),
    (
        413,
        true,
        None,
        b"HTTP/1.1 413 Payload Too Large\r\nContent-Type: application/json\r\nContent-Length: 2\r\nConnection: close\r\n\r\n",
    ),
    (
        431,
        true,
        None,
        b"HTTP/1.1 431 Request Header Fields Too Large\r\nContent-Type: application/json\r\nContent-Length: 2\r\nConnection: close\r\n\r\n",
    ),
    (
        503,
        false,
        None,
        b"HTTP/1.1 503 Service Unavailable\r\nContent-Type: application/json\r\nContent-Length: 2\r\n\r\n",
    ),
    (
        507,
        false,
        None,
        b"HTTP/1.1 507 Insufficient Storage\r\nContent-Type: application/json\r\nContent-Length: 2\r\n\r\n",
    ),
];

#[test]
fn one_of_each_status(rt: HostRuntime) -> Result<(), Fail> {
    let alloc = rt.alloc();
    for (status, close, allow, head) in ROWS {
        if !STATUSES.contains(&status) || allow.is_some() != (status == 405) {
            return Err("a status".into());
        }
        let bytes = response_bytes(alloc, status, b"{}", close, allow)?;
        let mut whole = head.to_vec(alloc)?;
        whole.extend_from_slice(b"{}")?;
        assert_eq!(rt; bytes.as_slice(), whole.as_slice(), "{status}");
    }
    Ok(())
}

#[test]
fn all_bytes_are_sent(rt: HostRuntime) -> Result<(), Fail> {
    let alloc = rt.alloc();
    // The number of the write that fails, whether all is sent, and how many bytes are written, 3 a write.
    for (failing, sent, written) in [(0, true, 10), (1, false, 0), (3, false, 6), (5, true, 10)] {
        let writes = [failing].to_vec(alloc)?;
        let inner = PairLink::new(alloc, Vec::new(alloc), Vec::new(alloc), writes);
        let mut conn = Conn::new(alloc, Sips { inner, most: 3 });
        let answer = conn.send(b"0123456789");
        let link = conn.into_link();
        assert_eq!(rt;
            (answer.is_ok(), link.inner.written().len()),
            (sent, written),
            "write {failing} fails"
        );
    }
    Ok(())
}
