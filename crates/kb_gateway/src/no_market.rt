//! A market for runs that ask for no money.
ghost use Rattle.std.specs.Prelude.{◌≡◌, ⊤, Ok, IfOk, IsOk};
ghost use Rattle.kb_gateway.specs.Told.{canceling, no_market_told};
ghost use Rattle.kb_gateway.specs.declared.told.Told.TheVariants as told;
ghost use Rattle.kb_gateway.specs.declared.told.Seen.TheVariants as seen;

use crate::gateway::Gateway;
use crate::market::Market;
use crate::order::Order;
use crate::told::{Seen, Told};
use kb_base::Failed;

/// A gateway that no order reaches: each is answered as canceled, and none was seen. It never fails.
#[derive(Clone, Copy, Debug, Drop)]
pub struct NoGateway;

impl Gateway for NoGateway {
    ghost told = { canceling };

    fn ask(&mut self, order: &Order) -> Result<Told, Failed>
        ensures { result ≡ Ok told.Canceled }
    {
        Ok(Told::Canceled)
    }

    fn look_up(&mut self, order: &Order) -> Result<Seen, Failed>
        ensures { result ≡ Ok seen.NotSeen }
    {
        Ok(Seen::NotSeen)
    }
}

/// A market that gives each lane a gateway that no order reaches. It never fails.
#[derive(Clone, Copy, Debug, Drop)]
pub struct NoMarket;

impl Market for NoMarket {
    type Gateway = NoGateway;

    ghost told = { λ market. no_market_told };

    ghost serves = { λ gateway name lane. ⊤ };

    fn gateway(&mut self, name: &str, lane: u32) -> Result<NoGateway, Failed>
        ensures made { IsOk result }
        ensures served { IfOk result (λ _. ⊤) }
    {
        Ok(NoGateway)
    }

    fn back(&mut self, lane: u32, gateway: NoGateway) {}
}
