//! Why a journal refuses.

ghost use Rattle.std.specs.Prelude.{◌≡◌};
ghost use Rattle.kb_journal.specs.declared.fault.LoadFault.TheVariants.{NoMemory};

use std::alloc::AllocError;
use thiserror::Error;

/// Why a journal isn't made.
#[derive(Clone, Copy, Debug, PartialEq, Eq, Error)]
pub enum CreateFault {
    /// The disk has bytes.
    #[error("the disk isn't empty")]
    NotEmpty,
    #[error("the disk failed")]
    DiskFault,
}

/// Why a record isn't added.
#[derive(Clone, Copy, Debug, PartialEq, Eq, Error)]
pub enum AppendFault {
    /// An earlier append failed. So many records are acknowledged.
    #[error("the journal has stopped with {0} records")]
    Stopped(u64),
    /// The record would pass 4,294,967,295 records or 2^40 bytes. The journal has `commands` records and, up
    /// to and with its last gate, `size` bytes.
    #[error("the journal is full with {commands} records and {size} bytes")]
    Full { commands: u64, size: u64 },
    #[error("the disk failed")]
    DiskFault,
}

/// Why a journal isn't read.
#[derive(Clone, Copy, Debug, PartialEq, Eq, Error)]
pub enum LoadFault {
    /// The bytes are no journal of this lane, which shows at this place.
    #[error("no journal at {0}")]
    NotAJournal(u64),
    #[error("the disk failed")]
    DiskFault,
    #[error("out of memory")]
    NoMemory,
}

impl From<AllocError> for LoadFault {
    ghost from_gives = { λ _ fault. fault ≡ NoMemory };

    fn from(_: AllocError) -> LoadFault {
        LoadFault::NoMemory
    }
}
