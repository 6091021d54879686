//! Where orders go.
ghost use Rattle.std.specs.Prelude.{◌≡◌, ◌≤◌, true, Ok, OnOk};
ghost use Rattle.kb_base.specs.Faults.{HasCause};
ghost use Rattle.kb_ports.specs.Notes.{Notes};
ghost use Rattle.kb_gateway.specs.declared.told.Told.TheVariants.{Canceled};
ghost use Rattle.kb_gateway.specs.declared.told.Seen.TheVariants.{NotSeen};
ghost use Rattle.kb_gateway.specs.Answers.{said_of_ask, said_of_look_up};
ghost use Rattle.kb_gateway.specs.Told.{GatewayTold};

use crate::order::Order;
use crate::told::{Seen, Told};
use kb_base::Failed;

/// A payment gateway.
pub trait Gateway {
    /// What it tells: the orders that were asked, and what was heard at each call, failed ones too; how many
    /// calls have failed, a u64, which stands still at its last value; and whether it cancels each order and
    /// has seen none.
    ghost told: { GatewayTold Self };

    /// Asks for an order, which is noted whether the call answers or fails: money may have moved either way.
    fn ask(&mut self, order: &Order) -> Result<Told, Failed>
        ensures asked { Notes (told.asked self.old) order.now (told.asked self.new) }
        ensures said { Notes (told.said self.old) (said_of_ask order.now result) (told.said self.new) }
        ensures canceled { told.cancels self.old ≡ true → result ≡ Ok Canceled }
        ensures same { told.cancels self.new ≡ told.cancels self.old }
        ensures cause { HasCause (told.faults self.old) (told.faults self.new) result }
        ensures calm { OnOk result (told.faults self.new ≡ told.faults self.old) }
        ensures rising { told.faults self.old ≤ told.faults self.new };

    /// Looks up what became of an order. It asks nothing.
    fn look_up(&mut self, order: &Order) -> Result<Seen, Failed>
        ensures asked { told.asked self.new ≡ told.asked self.old }
        ensures said { Notes (told.said self.old) (said_of_look_up order.now result) (told.said self.new) }
        ensures unseen { told.cancels self.old ≡ true → result ≡ Ok NotSeen }
        ensures same { told.cancels self.new ≡ told.cancels self.old }
        ensures cause { HasCause (told.faults self.old) (told.faults self.new) result }
        ensures calm { OnOk result (told.faults self.new ≡ told.faults self.old) }
        ensures rising { told.faults self.old ≤ told.faults self.new };
}
