//! What comes of work that nobody asked for.

/// What comes of one step of a lane's own work: of an entry of its outbox, or of looking up open payments.
#[derive(Clone, Copy, Debug, PartialEq, Eq)]
pub enum Step {
    /// There was nothing to do.
    Idle,
    /// It is done.
    Done,
    /// The disk failed while a command was written down: a crash may keep it, and the lane has stopped.
    DiskFault,
    /// An earlier write failed. So many commands are acknowledged.
    Stopped(u64),
    /// The journal has no room for it. It has `commands` records and `size` bytes, up to and with its last
    /// gate.
    Full { commands: u64, size: u64 },
    /// Memory ran out.
    NoMemory,
}
