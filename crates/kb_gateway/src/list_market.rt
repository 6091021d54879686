//! A market in memory.
ghost use Rattle.std.specs.Prelude.{◌≡◌, ◌≢◌, ◌≤◌, ◌⊎◌, ◌↔◌, ⊤, ℕ, [], ◌∷◌, ◌++◌, Some, IsErr, IsTrue, IfOk};
ghost use Rattle.std.specs.Prelude.{OnErr, OnOk};
ghost use Rattle.kb_base.specs.Faults.{next_count, HasCause};
ghost use Rattle.kb_ports.specs.Memory.{fails_next};
ghost use Rattle.kb_gateway.specs.ListGateways.{GatewayValue, begun, came_of, list_told, market_told, new_market};
ghost use Rattle.kb_gateway.specs.Told.{IsUnasked};

use crate::list_gateway::ListGateway;
use crate::market::Market;
use kb_base::{Failed, History};
use kb_ports::Calls;
use std::collections::VecDeque;
use std::marker::Model;

/// Gateways in memory, given out one after another whatever their name and lane; with the numbers of the
/// calls that are to fail. A call fails too once none is left. Contracts see the gateways that came back;
/// code sees nothing of them.
pub struct ListMarket {
    gateways: VecDeque<ListGateway>,
    calls: Calls,
    came_back: History<u32, ListGateway>,
}

impl Model for ListMarket {
    ghost use Rattle.std.specs.VecDeque.{deque_items};
    ghost use Rattle.kb_gateway.specs.ListGateways.{MarketValue};

    ghost Value = { MarketValue };

    ghost view = { λ market. record {
      gateways = deque_items market.gateways;
      failing = market.calls.failing.items;
      calls = market.calls.made;
      faults = market.calls.faults;
      came_back = market.came_back;
    } };
}

impl Drop for ListMarket {
    /// Drops its gateways. No crate above has to show again how that is dropped.
    fn drop(self) {
        let ListMarket {
            gateways: _gateways,
            calls: _calls,
            came_back: _came_back,
        } = self;
    }
}

impl ListMarket {
    /// A market of these gateways. The calls of the numbers `failing`, counted from 1, fail.
    pub fn new(gateways: Vec<ListGateway>, failing: Vec<u64>) -> ListMarket
        ensures { result ≡ new_market gateways.items failing.items }
    {
        ListMarket {
            gateways: VecDeque::from(gateways),
            calls: Calls::new(failing),
            came_back: History::new(),
        }
    }

    /// How many calls have failed.
    pub fn faults(&self) -> u64
        ensures { result ≡ self.now.faults }
    {
        self.calls.faults.number()
    }
}

impl Market for ListMarket {
    type Gateway = ListGateway;

    ghost told = { market_told };

    ghost serves = { λ gateway name lane. ⊤ };

    /// Gives out the next gateway. What it was asked and said before is told no more.
    fn gateway(&mut self, name: &str, lane: u32) -> Result<ListGateway, Failed>
        ensures unasked { IfOk result (IsUnasked list_told) }
        ensures same_back { (number : ℕ) → Some (came_of self.new.came_back number)
            ≡ Some (came_of self.old.came_back number) }
        ensures cause { HasCause self.old.faults self.new.faults result }
        ensures calm { OnOk result (self.new.faults ≡ self.old.faults) }
        ensures rising { self.old.faults ≤ self.new.faults }
        ensures fails { IsErr result ↔ (IsTrue (fails_next self.old.failing self.old.calls)
            ⊎ (self.old.gateways ≡ [])) }
        ensures next { IfOk result (λ gateway. (front : GatewayValue)
            × (self.old.gateways ≡ front ∷ self.new.gateways) × (gateway ≡ begun front)) }
        ensures kept { OnErr result (self.new.gateways ≡ self.old.gateways) }
        ensures left { self.new ≡ record self.old {
          gateways = self.new.gateways;
          calls = next_count self.old.calls;
          faults = self.new.faults;
        } }
    {
        self.calls.begin()?;
        match self.gateways.pop_front() {
            Some(mut gateway) => {
                gateway.begin();
                Ok(gateway)
            }
            None => Err(self.calls.fault()),
        }
    }

    #[tactic(auto, using(crate::proofs::CameBack::came))]
    fn back(&mut self, lane: u32, gateway: ListGateway)
        ensures noted { came_of self.new.came_back lane ≡ came_of self.old.came_back lane ++ gateway ∷ [] }
        ensures others { (number : ℕ) → number ≢ lane → Some (came_of self.new.came_back number)
            ≡ Some (came_of self.old.came_back number) }
        ensures calm { self.new.faults ≡ self.old.faults }
        ensures left { self.new ≡ record self.old {
          came_back = self.old.came_back ++ (lane, gateway) ∷ [];
        } }
    {
        self.came_back.note(&lane, &gateway);
    }
}
