//! A TCP port where connections come in.
ghost use Rattle.std.specs.Prelude.{◌≡◌, ◌<◌, ◌+◌, None};

use crate::tcp_link::TcpLink;
use kb_base::{Failed, FaultCount};
use kb_ports::Door;
use std::io;
use std::marker::Model;
use std::net::{IpAddr, Ipv4Addr, Net, SocketAddr, TcpListener, TcpStream};

/// A TCP port of this machine, seen as how many links it has handed out and got back and how many of its
/// calls have failed.
#[derive(Drop)]
pub struct TcpDoor<'a, R: Net<Listener = TcpListener, Stream = TcpStream>> {
    net: &'a R,
    listener: Option<TcpListener>,
    handed_out: u64,
    given_back: u64,
    faults: FaultCount,
}

impl<'a, R: Net<Listener = TcpListener, Stream = TcpStream>> Model for TcpDoor<'a, R> {
    ghost use Rattle.kb_system.specs.Counts.{DoorCounts};

    ghost Value = { DoorCounts };

    ghost view = { λ door. record {
      handed_out = door.handed_out;
      given_back = door.given_back;
      faults = door.faults;
    } };
}

impl<'a, R: Net<Listener = TcpListener, Stream = TcpStream>> TcpDoor<'a, R> {
    /// A door that doesn't listen yet.
    pub fn new(net: &'a R) -> TcpDoor<'a, R>
        ensures { result ≡ record { handed_out = 0; given_back = 0; faults = 0 } }
    {
        TcpDoor {
            net,
            listener: None,
            handed_out: 0,
            given_back: 0,
            faults: FaultCount::new(),
        }
    }

    /// The port at which the door listens: the system's choice, if it was told to listen at port 0.
    pub fn port(&self) -> Option<u16> {
        match &self.listener {
            Some(listener) => match listener.local_addr() {
                Ok(address) => Some(address.port()),
                Err(_) => None,
            },
            None => None,
        }
    }
}

impl<R: Net<Listener = TcpListener, Stream = TcpStream>> Door for TcpDoor<'_, R> {
    type Link = TcpLink;

    ghost count_out = { λ door. door.handed_out };

    ghost count_back = { λ door. door.given_back };

    ghost handed_out = { λ _. None };

    ghost given_back = { λ _. None };

    ghost faults = { λ door. door.faults };

    /// Listens on this port of every address of the machine.
    fn listen(&mut self, port: u16) -> Result<(), Failed> {
        let address = SocketAddr::new(IpAddr::V4(Ipv4Addr::UNSPECIFIED), port);
        match TcpListener::bind(self.net, address) {
            Ok(listener) => {
                self.listener = Some(listener);
                Ok(())
            }
            Err(_) => Err(self.faults.fail()),
        }
    }

    /// Hands out the next connection. It fails too before the door listens, and once 2^64 - 1 are handed out.
    fn accept(&mut self) -> Result<TcpLink, Failed> {
        if self.handed_out == u64::MAX {
            return Err(self.faults.fail());
        }
        match accept_on(&self.listener) {
            Ok(link) => {
                self.handed_out += 1;
                Ok(link)
            }
            Err(_) => Err(self.faults.fail()),
        }
    }

    fn back(&mut self, link: TcpLink) {
        // Fewer were given back, so the sum fits.
        let _handed_out = self.handed_out;
        self.given_back += 1;
        drop(link);
    }
}

/// The next connection of a listener.
fn accept_on(listener: &Option<TcpListener>) -> io::Result<TcpLink> {
    match listener {
        Some(listener) => {
            let (stream, _) = listener.accept()?;
            TcpLink::new(stream)
        }
        None => Err(io::ErrorKind::NotConnected.into()),
    }
}
