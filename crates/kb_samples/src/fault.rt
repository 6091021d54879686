//! Why a sample isn't made.

use kb_base::NoMemory;
use kb_blocking::AddFault;
use kb_timeline::EditFault;
use std::alloc::{AllocError, AllocFailed};
use thiserror::Error;

/// Why a sample isn't made.
#[derive(Clone, Copy, Debug, Error)]
pub enum SampleFault {
    /// A number or a text isn't what it stands for.
    #[error("no such day or name")]
    Word,
    /// A catalog text is refused, or a version isn't after the one before.
    #[error("no such catalog")]
    Catalog,
    /// A step names a plan that isn't in the catalog on its day.
    #[error("no such plan")]
    Plan,
    /// A step names a subscription that isn't there, or creates a fifth one.
    #[error("no such subscription")]
    Subscription,
    /// A step is refused.
    #[error("no such step: {0}")]
    Step(EditFault),
    /// A blocking state is refused.
    #[error("no such state: {0}")]
    State(AddFault),
    /// Memory ran out.
    #[error("out of memory")]
    NoMemory,
}

impl From<EditFault> for SampleFault {
    fn from(fault: EditFault) -> SampleFault {
        SampleFault::Step(fault)
    }
}

impl From<AddFault> for SampleFault {
    fn from(fault: AddFault) -> SampleFault {
        SampleFault::State(fault)
    }
}

impl From<NoMemory> for SampleFault {
    fn from(_: NoMemory) -> SampleFault {
        SampleFault::NoMemory
    }
}

impl From<AllocError> for SampleFault {
    fn from(_: AllocError) -> SampleFault {
        SampleFault::NoMemory
    }
}

impl<T: Drop> From<AllocFailed<T>> for SampleFault {
    fn from(_: AllocFailed<T>) -> SampleFault {
        SampleFault::NoMemory
    }
}
