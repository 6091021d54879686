//! How many entries of an outbox are handled at most.
ghost use Rattle.kb_lane.specs.DrainBounds.{DrainsAreBounded};

use kb_disk::Disk;
use kb_gateway::Gateway;

/// The entries that are handled on a day are bounded by the outbox at the start, and by the invoices that the
/// accounts named there have at the end.
pub fn drains_are_bounded<D: Disk, G: Gateway + Drop>()
    ensures { DrainsAreBounded D.told.fault_count G.told }
{}
