//! A gateway over TCP, from this process to itself.

use crate::compare::same;
use crate::line_gateway::orders::{ASK, LOOK, order_of};
use kb_gateway::{Gateway, LineGateway, Market, Order, Seen, Told};
use kb_payment::Kind;
use kb_system::{LineMarket, TcpLink};
use std::io::{Read, Write};
use std::net::{TcpListener, TcpStream};
use std::test::Fail;
use std::{io, thread};

#[test]
fn a_peer_answers_and_then_closes(rt: HostRuntime) -> Result<(), Fail> {
    let listener = TcpListener::bind(&rt, "127.0.0.1:0")?;
    let port = listener.local_addr()?.port();
    let name = format!(in rt.alloc(); "127.0.0.1:{port}")?;
    let mut market = LineMarket::new(&rt);
    let mut gateway = market.gateway(&name, 0)?;
    let order = order_of(Kind::Purchase, 1250, b"USD")?;
    let (heard, told) = thread::join(
        &rt,
        || answer(&listener).unwrap_or(false),
        || ask(&mut gateway, &order),
    );
    same(
        &rt,
        &(heard, told, gateway.faults(), market.faults()),
        &(
            true,
            (Some(Told::Pending), Some(Seen::NotSeen), None, None),
            2,
            0,
        ),
        &"",
    );
    Ok(())
}

/// Asks and looks up twice.
fn ask(
    gateway: &mut LineGateway<TcpLink>,
    order: &Order,
) -> (Option<Told>, Option<Seen>, Option<Told>, Option<Seen>) {
    (
        gateway.ask(order).ok(),
        gateway.look_up(order).ok(),
        gateway.ask(order).ok(),
        gateway.look_up(order).ok(),
    )
}

/// Answers two lines, and closes in the middle of the third answer. Says whether the lines are the expected
/// ones.
fn answer(listener: &TcpListener) -> io::Result<bool> {
    let (stream, _) = listener.accept()?;
    let mut stream = stream;
    let asked = hears(&mut stream, ASK)?;
    stream.write_all(b"PENDING\n")?;
    let looked_up = hears(&mut stream, LOOK)?;
    stream.write_all(b"NOTSEEN\n")?;
    let asked_again = hears(&mut stream, ASK)?;
    stream.write_all(b"PROC")?;
    Ok(asked && looked_up && asked_again)
}

/// Whether this line comes next.
fn hears(stream: &mut TcpStream, line: &[u8]) -> io::Result<bool> {
    let mut bytes = [0; 77];
    let bytes = &mut bytes[..line.len().min(77)];
    stream.read_exact(bytes)?;
    Ok(*bytes == *line)
}

#[test]
fn nobody_has_that_name(rt: HostRuntime) {
    let mut market = LineMarket::new(&rt);
    for (name, faults) in [
        ("localhost", 1),
        ("localhost:", 2),
        ("localhost:65536", 3),
        ("127.0.0.1:0", 4),
    ] {
        same(
            &rt,
            &(market.gateway(name, 0).is_err(), market.faults()),
            &(true, faults),
            &name,
        );
    }
}
