//! Why a vault doesn't give a file.
ghost use Rattle.std.specs.Prelude.{◌≡◌};
ghost use Rattle.kb_disk.specs.declared.fault.FileFault.TheVariants as fault;

use std::alloc::{AllocError, AllocFailed};
use thiserror::Error;

/// Why a vault doesn't give a disk or a text.
#[derive(Clone, Copy, Debug, PartialEq, Eq, Error)]
pub enum FileFault {
    /// The vault failed, and counted the fault.
    #[error("the file can't be had")]
    Failed,
    #[error("out of memory")]
    NoMemory,
}

impl From<kb_base::Failed> for FileFault {
    ghost from_gives = { λ _ given. given ≡ fault.Failed };

    fn from(_: kb_base::Failed) -> FileFault {
        FileFault::Failed
    }
}

impl From<kb_base::NoMemory> for FileFault {
    ghost from_gives = { λ _ given. given ≡ fault.NoMemory };

    fn from(_: kb_base::NoMemory) -> FileFault {
        FileFault::NoMemory
    }
}

impl From<AllocError> for FileFault {
    ghost from_gives = { λ _ given. given ≡ fault.NoMemory };

    fn from(_: AllocError) -> FileFault {
        FileFault::NoMemory
    }
}

impl<T: Drop> From<AllocFailed<T>> for FileFault {
    ghost from_gives = { λ _ given. given ≡ fault.NoMemory };

    fn from(_: AllocFailed<T>) -> FileFault {
        FileFault::NoMemory
    }
}
