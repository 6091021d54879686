//! The cells of a day.
ghost use Rattle.std.specs.Prelude.{◌<◌, length, IsOk};

use crate::fault::SampleFault;
use kb_days::{Day, Reach};
use kb_due::{Cell, Facts, due_on, fee_on};

/// The due cell and the fee cell of a day for the subscription at a place, on a billed date.
pub fn cells_on(facts: &Facts, sub: u32, billed: Day, day: Reach) -> (Option<Cell>, Option<Cell>)
    requires there { sub < length facts.now.timeline.subscriptions }
{
    (
        due_on(facts, sub, billed, day),
        fee_on(facts, sub, billed, day),
    )
}

/// Holds that the subscription at a place is there: `SampleFault::Subscription` if it isn't.
pub fn is_there(facts: &Facts, sub: u32) -> Result<(), SampleFault>
    ensures there { IsOk result → sub < length facts.now.timeline.subscriptions }
{
    if facts.timeline.len() <= sub {
        return Err(SampleFault::Subscription);
    }
    Ok(())
}
