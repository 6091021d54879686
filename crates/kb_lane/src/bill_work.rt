//! How much work a lane has left.
ghost use Rattle.kb_lane.specs.WorkBounds.{LaneWorkIsBounded};

/// The work that a lane has left is bounded by its outbox and by the invoices of the accounts named there.
pub fn lane_work_is_bounded()
    ensures { LaneWorkIsBounded }
{}
