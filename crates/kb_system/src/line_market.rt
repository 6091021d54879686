//! Gateways that are asked over TCP.
ghost use Rattle.std.specs.Prelude.{◌≡◌, ◌≤◌, ⊤, None, IfOk, OnOk};
ghost use Rattle.kb_base.specs.Faults.{HasCause};
ghost use Rattle.kb_gateway.specs.Exchanges.{line_told, new_value};
ghost use Rattle.kb_gateway.specs.Told.{IsUnasked};

use crate::tcp_link::TcpLink;
use kb_base::{Failed, FaultCount};
use kb_gateway::{LineGateway, Market};
use std::marker::Model;
use std::net::{Net, TcpListener, TcpStream};

/// Gateways that are asked over TCP, seen as how many of its calls have failed.
#[derive(Drop)]
pub struct LineMarket<'a, R: Net<Listener = TcpListener, Stream = TcpStream>> {
    net: &'a R,
    faults: FaultCount,
}

impl<'a, R: Net<Listener = TcpListener, Stream = TcpStream>> Model for LineMarket<'a, R> {
    ghost use Rattle.std.specs.Prelude.{ℕ};

    ghost Value = { ℕ };

    ghost view = { λ market. market.faults };
}

impl<'a, R: Net<Listener = TcpListener, Stream = TcpStream>> LineMarket<'a, R> {
    /// A market that hasn't connected yet.
    pub fn new(net: &'a R) -> LineMarket<'a, R>
        ensures { result ≡ 0 }
    {
        LineMarket {
            net,
            faults: FaultCount::new(),
        }
    }

    /// How many calls have failed.
    pub fn faults(&self) -> u64
        ensures { result ≡ self.now }
    {
        self.faults.number()
    }
}

impl<R: Net<Listener = TcpListener, Stream = TcpStream>> Market for LineMarket<'_, R> {
    type Gateway = LineGateway<TcpLink>;

    ghost told = { λ market. record { faults = market; came_back = λ _. None } };

    ghost serves = { λ gateway name lane. ⊤ };

    /// Connects to the peer with this name, `host:port`: anew for each lane, whatever its number. It fails
    /// where the name is none or isn't known, and where nobody answers there.
    fn gateway(&mut self, name: &str, lane: u32) -> Result<LineGateway<TcpLink>, Failed>
        ensures served { IfOk result (λ _. ⊤) }
        ensures unasked { IfOk result (IsUnasked line_told) }
        ensures cause { HasCause self.old self.new result }
        ensures calm { OnOk result (self.new ≡ self.old) }
        ensures rising { self.old ≤ self.new }
        ensures fresh { IfOk result (λ gateway. gateway ≡ new_value (record { reads = 0; writes = 0 })) }
    {
        match TcpLink::connect(self.net, name) {
            Ok(link) => Ok(LineGateway::new(link)),
            Err(_) => Err(self.faults.fail()),
        }
    }

    /// Closes the connection.
    fn back(&mut self, lane: u32, gateway: LineGateway<TcpLink>) {}
}
