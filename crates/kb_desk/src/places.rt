//! What one of some lanes is asked for.
ghost use Rattle.std.specs.Prelude.{◌≡◌, ◌<◌, true, length};
ghost use Rattle.kb_codec.specs.Senders.{is_callers};
ghost use Rattle.kb_lane.specs.Replies.{Performs};
ghost use Rattle.kb_lane.specs.LookingUp.{LooksAllUp};
ghost use Rattle.kb_lane.specs.Drains.{Drains};
ghost use Rattle.kb_desk.specs.Continuing.{Continues};
ghost use Rattle.kb_desk.specs.Places.{GoesAt};

use kb_book::{LaneReply, Step};
use kb_codec::Command;
use kb_days::Day;
use kb_disk::Disk;
use kb_gateway::Gateway;
use kb_lane::{Lane, drain};
use std::alloc::Global;

/// The lane at a place, numbered from 0, performs a command, and replies. The other lanes stay as they are.
pub fn perform_in<D: Disk, G: Gateway + Drop>(
    lanes: &mut Vec<Lane<D, G>>,
    alloc: Global,
    today: Day,
    command: &Command,
    place: usize,
) -> LaneReply
    requires callers { is_callers command.now ≡ true }
    requires within { place < length lanes.old.items }
    ensures performed { GoesAt (λ lane next. Performs D.told.fault_count lane next today command.now result
        × Continues D.told.honest D.told.moment D.told.left_since D.told.fault_count lane next) place lanes.old.items
        lanes.new.items }
    ensures count { length lanes.new.items ≡ length lanes.old.items }
{
    lanes[place].perform(alloc, today, command)
}

/// The lane at a place, numbered from 0, looks its open payments up, up to a step that is given. The other
/// lanes stay as they are.
pub fn look_up_in<D: Disk, G: Gateway + Drop>(
    lanes: &mut Vec<Lane<D, G>>,
    alloc: Global,
    today: Day,
    place: usize,
) -> Step
    requires within { place < length lanes.old.items }
    ensures looked { GoesAt
        (λ lane next. LooksAllUp D.told.fault_count G.told today lane next result
        × Continues D.told.honest D.told.moment D.told.left_since D.told.fault_count lane next) place lanes.old.items
        lanes.new.items }
    ensures count { length lanes.new.items ≡ length lanes.old.items }
{
    lanes[place].janitor(alloc, today)
}

/// The outbox of the lane at a place, numbered from 0, is drained, up to a step that is given. The other
/// lanes stay as they are.
pub fn drain_in<D: Disk, G: Gateway + Drop>(
    lanes: &mut Vec<Lane<D, G>>,
    alloc: Global,
    today: Day,
    place: usize,
) -> Step
    requires within { place < length lanes.old.items }
    ensures drained { GoesAt (λ lane next. Drains D.told.fault_count G.told today lane next result
        × Continues D.told.honest D.told.moment D.told.left_since D.told.fault_count lane next) place lanes.old.items
        lanes.new.items }
    ensures count { length lanes.new.items ≡ length lanes.old.items }
{
    drain(&mut lanes[place], alloc, today)
}
