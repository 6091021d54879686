//! Why lanes aren't founded.
ghost use Rattle.std.specs.Prelude.{◌≡◌};
ghost use Rattle.kb_folder.specs.Foundings.{of_file, of_text};

use kb_catalog_text::TextFault;
use kb_disk::FileFault;
use thiserror::Error;

/// Why the lanes of a folder aren't founded.
#[derive(Debug, Drop, Error)]
pub enum Unfounded {
    /// The vault failed, or the disk of a lane, and the fault is counted.
    #[error("the disk failed")]
    Disk,
    #[error("out of memory")]
    NoMemory,
    /// The catalog text or the overdue text has this fault.
    #[error("{0}")]
    Text(TextFault),
    /// The lane of this number has bytes.
    #[error("lane {lane} isn't empty")]
    NotEmpty { lane: u32 },
}

impl From<FileFault> for Unfounded {
    ghost from_gives = { λ fault given. given ≡ of_file fault };

    fn from(fault: FileFault) -> Unfounded {
        match fault {
            FileFault::Failed => Unfounded::Disk,
            FileFault::NoMemory => Unfounded::NoMemory,
        }
    }
}

impl From<TextFault> for Unfounded {
    ghost from_gives = { λ fault given. given ≡ of_text fault };

    fn from(fault: TextFault) -> Unfounded {
        match fault {
            TextFault::Memory => Unfounded::NoMemory,
            fault => Unfounded::Text(fault),
        }
    }
}
