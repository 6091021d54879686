//! What stops the program, with its exit status.
ghost use Rattle.std.specs.Prelude.{◌≡◌};
ghost use Rattle.kb_runs.specs.declared.run_stop.RunStop.TheVariants.{Memory};
ghost use Rattle.kb_runs.specs.declared.stop.Stop.TheVariants.{Run};
ghost use Rattle.kb_runs.specs.Endings.{run_status, stop_status, text_status};

use crate::run_stop::RunStop;
use kb_base::NoMemory;
use kb_catalog_text::TextFault;
use std::alloc::AllocFailed;
use thiserror::Error;

/// What stops the program.
///
/// | Stop | Status | Last output line |
/// |---|---|---|
/// | `Words` | 2 | `billd: words` |
/// | `Run(Input)` | 3 | `billd: input` |
/// | `Run(Output)` | 4 | none |
/// | `Run(Memory)` | 7 | `billd: memory` |
/// | `Run(LineTooLong)` | 12 | `billd: line too long` |
/// | `Run(InputTooLong)` | 13 | `billd: input too long` |
/// | `Disk` | 5 | `billd: disk` |
/// | `Journal` | 6 | `billd: journal LANE AT` |
/// | `Text(NotToml)` | 8 | `billd: text 1` |
/// | `Text(Missing)`, `Text(WrongKind)`, `Text(Unknown)` | 8 | `billd: text 2 KEY`, and 3 and 4 |
/// | `Text(Rule)` | 8 | `billd: text 5 RULE PLACE` |
/// | `Text(Memory)` | 7 | `billd: memory` |
/// | `Text(TooLong)` | 8 | `billd: text 7 BYTES` |
/// | `Market` | 10 | `billd: market` |
/// | `NotEmpty` | 11 | `billd: not empty LANE` |
/// | `Full` | 14 | `billd: full` |
#[derive(Debug, Drop, Error)]
pub enum Stop {
    /// The words aren't in the grammar.
    #[error("the words name no command")]
    Words,
    /// The run over lines was stopped.
    #[error("{0}")]
    Run(RunStop),
    /// The disk failed.
    #[error("the disk failed")]
    Disk,
    /// The bytes of a lane are no journal of it, which shows at this place.
    #[error("no journal of lane {lane} at {at}")]
    Journal { lane: u32, at: u64 },
    /// A text is refused, or memory ran out while it was read.
    #[error("{0}")]
    Text(TextFault),
    /// The market failed.
    #[error("the market failed")]
    Market,
    /// The disk of a lane has bytes already.
    #[error("the disk of lane {lane} isn't empty")]
    NotEmpty { lane: u32 },
    /// A journal is full.
    #[error("a journal is full")]
    Full,
}

impl Stop {
    /// The exit status.
    pub fn status(&self) -> u8
        ensures { result ≡ stop_status self.now }
    {
        match self {
            Stop::Words => 2,
            Stop::Run(stop) => run_status(*stop),
            Stop::Disk => 5,
            Stop::Journal { .. } => 6,
            Stop::Text(fault) => text_status(fault),
            Stop::Market => 10,
            Stop::NotEmpty { .. } => 11,
            Stop::Full => 14,
        }
    }
}

/// The exit status of a run over lines that was stopped.
fn run_status(stop: RunStop) -> u8
    ensures { result ≡ run_status stop }
{
    match stop {
        RunStop::Input => 3,
        RunStop::Output => 4,
        RunStop::Memory => 7,
        RunStop::LineTooLong => 12,
        RunStop::InputTooLong => 13,
    }
}

/// The exit status of a text that is refused.
fn text_status(fault: &TextFault) -> u8
    ensures { result ≡ text_status fault.now }
{
    match fault {
        TextFault::Memory => 7,
        _ => 8,
    }
}

impl From<NoMemory> for Stop {
    ghost from_gives = { λ _ stop. stop ≡ Run Memory };

    fn from(_: NoMemory) -> Stop {
        Stop::Run(RunStop::Memory)
    }
}

impl<T: Drop> From<AllocFailed<T>> for Stop {
    ghost from_gives = { λ _ stop. stop ≡ Run Memory };

    fn from(_: AllocFailed<T>) -> Stop {
        Stop::Run(RunStop::Memory)
    }
}
