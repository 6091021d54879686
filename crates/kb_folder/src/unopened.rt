//! Why the lanes of a folder aren't opened.
ghost use Rattle.std.specs.Prelude.{◌≡◌};
ghost use Rattle.kb_folder.specs.Private.Faults.{unopened_by, unloaded_by};

use kb_disk::FileFault;
use kb_journal::LoadFault;
use thiserror::Error;

/// Why the lanes of a folder aren't opened.
#[derive(Clone, Copy, Debug, PartialEq, Eq, Error)]
pub enum Unopened {
    /// The vault, or the disk of a lane, failed.
    #[error("a lane can't be read")]
    Disk,
    #[error("out of memory")]
    NoMemory,
    /// The bytes of this lane are no lane of this number, or tell another number of lanes than those of
    /// lane 0. It shows at the place `at`.
    #[error("lane {lane}: no journal at {at}")]
    Journal { lane: u32, at: u64 },
    /// The market gives no gateway.
    #[error("no gateway")]
    Market,
}

/// That a vault gives no disk.
pub(crate) fn unopened_by(fault: FileFault) -> Unopened
    ensures { result ≡ unopened_by fault }
{
    match fault {
        FileFault::Failed => Unopened::Disk,
        FileFault::NoMemory => Unopened::NoMemory,
    }
}

/// That the lane of this number isn't loaded.
pub(crate) fn unloaded_by(number: u16, fault: LoadFault) -> Unopened
    ensures { result ≡ unloaded_by number fault }
{
    match fault {
        LoadFault::NotAJournal(at) => Unopened::Journal {
            lane: number as u32,
            at,
        },
        LoadFault::DiskFault => Unopened::Disk,
        LoadFault::NoMemory => Unopened::NoMemory,
    }
}
