//! The reply to a command.

use crate::answer::Answer;
use crate::refusal::Refusal;

/// The reply of a lane to a command of a caller. Only `Accepted`, `Version` and `States` may have changed
/// the lane.
#[derive(Clone, Copy)]
pub enum LaneReply {
    /// A command on an account was accepted, now or under the same key before.
    Accepted(Answer),
    /// A catalog text was accepted: so many versions the catalog had with it.
    Version(u32),
    /// An overdue text was accepted: so many states it has.
    States(u32),
    /// The command is refused, and changes nothing.
    Refused(Refusal),
    /// The disk failed while the command was written down: a crash may keep it, and the lane has stopped.
    DiskFault,
    /// An earlier write failed. So many commands are acknowledged.
    Stopped(u64),
    /// The journal has no room for it. It has `commands` records and `size` bytes, up to and with its last
    /// gate.
    Full { commands: u64, size: u64 },
    /// Memory ran out, and nothing changed.
    NoMemory,
}
