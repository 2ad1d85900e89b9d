//! Why an expression isn't worked out.

ghost use Rattle.std.specs.Prelude.{◌≡◌};
ghost use Rattle.quil_value.specs.declared.work_fault.WorkFault.TheVariants.{OutOfMemory};

use crate::stop::Stop;
use std::alloc::{AllocError, AllocFailed};

/// Why an expression isn't worked out.
#[derive(Clone, Copy, Debug, PartialEq, Eq)]
pub enum WorkFault {
    /// It has no value.
    Stop(Stop),
    /// Memory ran out.
    OutOfMemory,
}

impl From<AllocError> for WorkFault {
    ghost from_gives = { λ _ e. e ≡ OutOfMemory };

    fn from(_e: AllocError) -> WorkFault {
        WorkFault::OutOfMemory
    }
}

impl<T: Drop> From<AllocFailed<T>> for WorkFault {
    ghost from_gives = { λ _ e. e ≡ OutOfMemory };

    fn from(_e: AllocFailed<T>) -> WorkFault {
        WorkFault::OutOfMemory
    }
}
