//! Where gateways come from.
ghost use Rattle.std.specs.Prelude.{◌≡◌, ◌≢◌, ◌≤◌, ℕ, List, Option, IfOk, OnOk};
ghost use Rattle.kb_base.specs.Faults.{HasCause};
ghost use Rattle.kb_ports.specs.Notes.{Notes};
ghost use Rattle.kb_gateway.specs.Told.{IsUnasked, MarketTold};

use crate::gateway::Gateway;
use kb_base::Failed;

/// Makes the gateway of each lane, and takes it back when the lane has done.
pub trait Market {
    type Gateway: Gateway + Send + Drop;

    /// What it tells: how many calls have failed, a u64, which stands still at its last value; and the
    /// gateways
    /// of a lane that came back, in order, each as it was then, where the object tells them.
    ghost told: { Self → MarketTold Self.Gateway };

    /// That a gateway is one of this name, made for a lane. An object that can't tell says it of each.
    ghost serves: { Self.Gateway → List ℕ → ℕ → Type 0 };

    /// The gateway of this name for a lane, numbered from 0. What it tells begins with its first call.
    fn gateway(&mut self, name: &str, lane: u32) -> Result<Self::Gateway, Failed>
        ensures served { IfOk result (λ gateway. serves gateway name.now lane) }
        ensures unasked { IfOk result (λ gateway. IsUnasked Self.Gateway.told gateway) }
        ensures same_back { (number : ℕ) → (told self.new).came_back number ≡ (told self.old).came_back
            number }
        ensures cause { HasCause (told self.old).faults (told self.new).faults result }
        ensures calm { OnOk result ((told self.new).faults ≡ (told self.old).faults) }
        ensures rising { (told self.old).faults ≤ (told self.new).faults };

    /// Takes the gateway of a lane back. It never fails.
    fn back(&mut self, lane: u32, gateway: Self::Gateway)
        ensures noted { Notes ((told self.old).came_back lane) gateway ((told self.new).came_back lane) }
        ensures others { (number : ℕ) → number ≢ lane
            → (told self.new).came_back number ≡ (told self.old).came_back number }
        ensures calm { (told self.new).faults ≡ (told self.old).faults };
}
