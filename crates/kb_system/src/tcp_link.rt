//! A connection over TCP.
ghost use Rattle.std.specs.Prelude.{◌≡◌, ◌<◌, None, IfOk, length};
ghost use Rattle.std.specs.Io.{ReadsAtMost, WritesAtMost};

use kb_base::{Failed, FaultCount};
use kb_ports::Link;
use std::io;
use std::io::{ErrorKind, Read, Write};
use std::marker::Model;
use std::net::{Net, TcpListener, TcpStream, ToSocketAddrs};
use std::time::Duration;

/// How long a peer may be silent, in seconds.
const PATIENCE: u64 = 30;

/// A connection over TCP, seen as its counts of failed reads and writes. It is closed when it is dropped.
#[derive(Drop)]
pub struct TcpLink {
    stream: TcpStream,
    reads: FaultCount,
    writes: FaultCount,
}

impl Model for TcpLink {
    ghost use Rattle.kb_system.specs.Counts.{LinkCounts};

    ghost Value = { LinkCounts };

    ghost view = { λ link. record { reads = link.reads; writes = link.writes } };
}

impl TcpLink {
    /// A link over this stream, of which no call has failed. A read or a write that waits longer than its
    /// patience fails. What is written is sent at once, however short it is.
    pub fn new(stream: TcpStream) -> io::Result<TcpLink>
        ensures { IfOk result (λ link. link ≡ record { reads = 0; writes = 0 }) }
    {
        let patience = Some(Duration::from_secs(PATIENCE));
        stream.set_read_timeout(patience)?;
        stream.set_write_timeout(patience)?;
        stream.set_nodelay(true)?;
        Ok(TcpLink {
            stream,
            reads: FaultCount::new(),
            writes: FaultCount::new(),
        })
    }

    /// A link with the peer of this name, `host:port`, of which no call has failed. Each address of the host
    /// is tried in turn, and has a link's patience to answer.
    pub fn connect<R>(net: &R, name: &str) -> io::Result<TcpLink>
    where
        R: Net<Listener = TcpListener, Stream = TcpStream>,
        ensures { IfOk result (λ link. link ≡ record { reads = 0; writes = 0 }) }
    {
        let patience = Duration::from_secs(PATIENCE);
        for address in name.to_socket_addrs(net)? {
            if let Ok(stream) = TcpStream::connect_timeout(net, &address, patience) {
                return TcpLink::new(stream);
            }
        }
        Err(ErrorKind::NotConnected.into())
    }
}

impl Link for TcpLink {
    ghost left = { λ _. None };

    ghost written = { λ _. None };

    ghost input_faults = { λ link. link.reads };

    ghost output_faults = { λ link. link.writes };

    fn read(&mut self, buf: &mut [u8]) -> Result<usize, Failed> {
        match read_once(&mut self.stream, buf) {
            Ok(count) => Ok(count),
            Err(_) => Err(self.reads.fail()),
        }
    }

    fn write(&mut self, bytes: &[u8]) -> Result<usize, Failed> {
        match write_once(&mut self.stream, bytes) {
            Ok(count) => Ok(count),
            Err(_) => Err(self.writes.fail()),
        }
    }
}

/// Reads some bytes. A read that a signal interrupts is made again.
fn read_once(stream: &mut TcpStream, buf: &mut [u8]) -> io::Result<usize>
    ensures { ReadsAtMost result buf.new }
{
    for _ in 0..u64::MAX {
        match stream.read(buf) {
            Err(error) if error.kind() == ErrorKind::Interrupted => {}
            answer => return answer,
        }
    }
    Err(ErrorKind::Interrupted.into())
}

/// Writes some bytes: at least one, unless there is none. A write that a signal interrupts is made again.
fn write_once(stream: &mut TcpStream, bytes: &[u8]) -> io::Result<usize>
    ensures count { WritesAtMost result bytes.now }
    ensures some { 0 < length bytes.now → IfOk result (λ count. 0 < count) }
{
    for _ in 0..u64::MAX {
        match stream.write(bytes) {
            Ok(0) if !bytes.is_empty() => return Err(ErrorKind::WriteZero.into()),
            Err(error) if error.kind() == ErrorKind::Interrupted => {}
            answer => return answer,
        }
    }
    Err(ErrorKind::Interrupted.into())
}
