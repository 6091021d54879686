//! What lanes write is determined.
ghost use Rattle.kb_apply.specs.Determined.{RunsAreDetermined};
ghost use Rattle.kb_apply.specs.LaneRuns.{outside_of};

use kb_disk::Disk;
use kb_gateway::Gateway;
use kb_ports::Clock;

/// Two runs in which nothing failed, over the same lines on the same days, of lanes with the same commands
/// whose gateways say the same, write the same and leave lanes with the same commands.
pub fn runs_are_determined<D: Disk, G: Gateway + Drop, C: Clock + Drop>()
    ensures determined { RunsAreDetermined (outside_of D.told G.told C.day) }
{}
