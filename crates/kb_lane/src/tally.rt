//! What came of the bills of a lane.
ghost use Rattle.std.specs.Prelude.{◌≡◌, ◌<◌, ◌+◌, ◌^◌, ℕ};
ghost use Rattle.kb_lane.specs.Tallies.{no_tally, of_reply, of_step, plus, IsAtMost};

use kb_book::{LaneReply, Step};

/// How the bills of a lane's accounts ended, and the handling that followed each.
#[derive(Clone, Copy, Debug, PartialEq, Eq)]
pub struct Tally {
    /// Bills that were accepted, now or under the same key before.
    pub accepted: u64,
    /// Bills that were refused.
    pub refused: u64,
    /// Bills and entries that met a disk that failed, or a lane that had stopped.
    pub disk: u64,
    /// Bills and entries for which the journal had no room.
    pub full: u64,
    /// Bills and entries for which there was no memory.
    pub memory: u64,
}

impl Tally {
    /// Nothing yet.
    pub fn none() -> Tally
        ensures { result ≡ no_tally }
    {
        Tally {
            accepted: 0,
            refused: 0,
            disk: 0,
            full: 0,
            memory: 0,
        }
    }

    /// What the reply to a bill adds.
    pub(crate) fn of_reply(reply: LaneReply) -> Tally
        ensures { result ≡ of_reply reply }
    {
        let mut tally = Tally::none();
        match reply {
            LaneReply::Accepted(_) | LaneReply::Version(_) | LaneReply::States(_) => {
                tally.accepted = 1;
            }
            LaneReply::Refused(_) => tally.refused = 1,
            LaneReply::DiskFault | LaneReply::Stopped(_) => tally.disk = 1,
            LaneReply::Full { .. } => tally.full = 1,
            LaneReply::NoMemory => tally.memory = 1,
        }
        tally
    }

    /// What the step adds that ended the handling after a bill.
    pub(crate) fn of_step(step: Step) -> Tally
        ensures { result ≡ of_step step }
    {
        let mut tally = Tally::none();
        match step {
            Step::Idle | Step::Done => {}
            Step::DiskFault | Step::Stopped(_) => tally.disk = 1,
            Step::Full { .. } => tally.full = 1,
            Step::NoMemory => tally.memory = 1,
        }
        tally
    }

    /// Both together.
    pub(crate) fn plus(self, other: Tally) -> Tally
        requires few { (most more : ℕ) × (most + more < 2 ^ 64) × IsAtMost most self × IsAtMost more other }
        ensures { result ≡ plus self other }
    {
        Tally {
            accepted: self.accepted + other.accepted,
            refused: self.refused + other.refused,
            disk: self.disk + other.disk,
            full: self.full + other.full,
            memory: self.memory + other.memory,
        }
    }
}
