//! Connections over TCP, from this process to itself.

use kb_http::{Conn, HttpNext, Route};
use kb_ports::{Door, Link};
use kb_system::{TcpDoor, TcpLink};
use std::io::{Read, Write};
use std::net::TcpStream;
use std::test::Fail;
use std::time::Instant;

#[test]
fn a_request_over_tcp(rt: HostRuntime) -> Result<(), Fail> {
    let alloc = rt.alloc();
    let mut door = TcpDoor::new(&rt);
    door.listen(0)?;
    let port = door.port().ok_or("a port")?;
    let mut peer = TcpStream::connect(&rt, ("127.0.0.1", port))?;
    peer.write_all(b"POST /janitor HTTP/1.1\r\nContent-Length: 2\r\n\r\n{}")?;
    let link = door.accept()?;
    let mut conn = Conn::new(alloc, link);
    let janitor = match conn.next(alloc) {
        HttpNext::Request(request) => request.route == Route::Janitor && request.body.len() == 2,
        _ => false,
    };
    conn.send(b"done")?;
    let mut buf = [0; 4];
    peer.read_exact(&mut buf)?;
    drop(peer);
    let closed = matches!(conn.next(alloc), HttpNext::Closed);
    assert_eq!(rt; (janitor, buf, closed), (true, *b"done", true));
    Ok(())
}

/// The patience of a link with a silent peer, in seconds.
const PATIENCE: u64 = 30;

#[test]
fn a_silent_peer_is_left(rt: HostRuntime) -> Result<(), Fail> {
    let mut door = TcpDoor::new(&rt);
    door.listen(0)?;
    let port = door.port().ok_or("a port")?;
    let _silent = TcpLink::new(TcpStream::connect(&rt, ("127.0.0.1", port))?)?;
    let mut left = door.accept()?;
    let mut peer = TcpLink::new(TcpStream::connect(&rt, ("127.0.0.1", port))?)?;
    let mut kept = door.accept()?;
    let begun = Instant::now(&rt)?;
    let mut buf = [0; 4];
    let failed = left.read(&mut buf).is_err();
    let waited = begun.elapsed(&rt)?.as_secs();
    let in_time = (PATIENCE - 1..PATIENCE + 15).contains(&waited);
    // The other connection isn't touched by that.
    let written = kept.write(b"done")?;
    let read = peer.read(&mut buf)?;
    assert_eq!(rt;
        (failed, in_time, written, read, buf),
        (true, true, 4, 4, *b"done"),
        "{waited} s"
    );
    Ok(())
}
