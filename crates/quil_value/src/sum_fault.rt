//! Why there is no sum.

ghost use Rattle.std.specs.Prelude.{◌≡◌};
ghost use Rattle.quil_value.specs.declared.sum_fault.SumFault.TheVariants.{OutOfMemory};

use crate::lack::Lack;
use std::alloc::{AllocError, AllocFailed};

/// Why there is no sum.
#[derive(Clone, Copy, Debug, PartialEq, Eq)]
pub enum SumFault {
    /// It is no rational sum, or is too wide.
    Lack(Lack),
    /// Memory ran out.
    OutOfMemory,
}

impl From<AllocError> for SumFault {
    ghost from_gives = { λ _ e. e ≡ OutOfMemory };

    fn from(_e: AllocError) -> SumFault {
        SumFault::OutOfMemory
    }
}

impl<T: Drop> From<AllocFailed<T>> for SumFault {
    ghost from_gives = { λ _ e. e ≡ OutOfMemory };

    fn from(_e: AllocFailed<T>) -> SumFault {
        SumFault::OutOfMemory
    }
}

impl From<Lack> for SumFault {
    ghost use Rattle.quil_value.specs.declared.sum_fault.SumFault.TheVariants.{Lack};

    ghost from_gives = { λ lack e. e ≡ Lack lack };

    fn from(lack: Lack) -> SumFault {
        SumFault::Lack(lack)
    }
}
