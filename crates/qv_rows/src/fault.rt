// Why a step does nothing.
use qv_base::NoMemory;
use std::alloc::{AllocError, AllocFailed};

/// Why a step of the script does nothing.
#[derive(Clone, Copy)]
pub enum StepFault {
    /// It can't be read, or speaks of a file or a place that isn't there.
    Unread,
    /// Memory was refused.
    NoMemory,
}

impl From<NoMemory> for StepFault {
    fn from(_: NoMemory) -> Self {
        StepFault::NoMemory
    }
}

impl From<AllocError> for StepFault {
    fn from(_: AllocError) -> Self {
        StepFault::NoMemory
    }
}

impl<T: Drop> From<AllocFailed<T>> for StepFault {
    fn from(_: AllocFailed<T>) -> Self {
        StepFault::NoMemory
    }
}
