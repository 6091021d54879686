//! What stops a run over lines.
ghost use Rattle.std.specs.Prelude.{◌≡◌};
ghost use Rattle.kb_runs.specs.declared.run_stop.RunStop.TheVariants.{Memory};

use kb_base::NoMemory;
use std::alloc::AllocFailed;
use thiserror::Error;

/// What stops a run before its input is read to the end.
#[derive(Clone, Copy, Debug, PartialEq, Eq, Error)]
pub enum RunStop {
    /// The source failed.
    #[error("the input failed")]
    Input,
    /// The sink failed.
    #[error("the output failed")]
    Output,
    /// Memory ran out.
    #[error("out of memory")]
    Memory,
    /// A line has more than 65,536 bytes.
    #[error("a line is too long")]
    LineTooLong,
    /// 2^40 bytes were read, and no end was met.
    #[error("the input is too long")]
    InputTooLong,
}

impl From<NoMemory> for RunStop {
    ghost from_gives = { λ _ stop. stop ≡ Memory };

    fn from(_: NoMemory) -> RunStop {
        RunStop::Memory
    }
}

impl<T: Drop> From<AllocFailed<T>> for RunStop {
    ghost from_gives = { λ _ stop. stop ≡ Memory };

    fn from(_: AllocFailed<T>) -> RunStop {
        RunStop::Memory
    }
}
