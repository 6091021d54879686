//! The outbox of a lane, handled to its end.
ghost use Rattle.std.specs.Prelude.{◌≡◌, ◌<◌};
ghost use Rattle.kb_book.specs.declared.step.Step.TheVariants as steps;
ghost use Rattle.kb_lane.specs.LaneWork.{lane_work};
ghost use Rattle.kb_lane.specs.Lanes.{StaysItself};
ghost use Rattle.kb_lane.specs.Drains.{Drains, Handles};
ghost use Rattle.kb_lane.specs.Going.{GoesWell};

use crate::lane::Lane;
use kb_book::Step;
use kb_days::Day;
use kb_disk::Disk;
use kb_gateway::Gateway;
use std::alloc::Global;

/// Handles the entries of a lane's outbox, one after another, up to a step that isn't `Done`, and gives that
/// step: `Idle` if all were handled. It comes to an end, since each step takes work off; what was done before
/// stays done.
pub fn drain<D: Disk, G: Gateway + Drop>(lane: &mut Lane<D, G>, alloc: Global, today: Day) -> Step
    ensures drained { Drains D.told.fault_count G.told today lane.old lane.new result }
    ensures well { GoesWell D.told.honest D.told.moment D.told.left_since lane.old.log lane.new.log }
    ensures itself { StaysItself D.told.honest D.told.fault_count lane.old lane.new }
{
    'entries: loop {
        match handle(lane, alloc, today) {
            Step::Done => {}
            step => return step,
        }
    }
}

/// Handles one entry.
fn handle<D: Disk, G: Gateway + Drop>(lane: &mut Lane<D, G>, alloc: Global, today: Day) -> Step
    ensures handled { Handles D.told.fault_count G.told today lane.old lane.new result }
    ensures lowers { result ≡ steps.Done → lane_work today lane.new < lane_work today lane.old }
    ensures well { GoesWell D.told.honest D.told.moment D.told.left_since lane.old.log lane.new.log }
    ensures itself { StaysItself D.told.honest D.told.fault_count lane.old lane.new }
{
    lane.handle_next(alloc, today)
}
