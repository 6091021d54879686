//! The calls of a disk, as one in memory notes them.

use kb_base::Seq;

/// A call of a disk, with what was asked.
#[derive(Drop)]
pub enum DiskCall {
    Size,
    /// A read of at most so many bytes at a place.
    Read { at: u64, len: u64 },
    /// A write of these bytes at a place.
    Write { at: u64, bytes: Seq<u8> },
    /// A cut to a size.
    Cut { size: u64 },
    Sync,
}

/// A call of a disk, and whether it failed.
#[derive(Drop)]
pub struct DiskNote {
    pub call: DiskCall,
    pub failed: bool,
}
