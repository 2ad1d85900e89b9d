//! Why declarations have no layout.

ghost use Rattle.std.specs.Prelude.{◌≡◌};
ghost use Rattle.quil_memory.specs.declared.fault.LayoutFault.TheVariants.{OutOfMemory};

use crate::name::Name;
use std::alloc::{AllocError, AllocFailed};

/// Why declarations have no layout.
#[derive(Debug, PartialEq, Eq, Drop)]
pub enum LayoutFault {
    /// A region of this name is declared before.
    Redeclared { word: Name },
    /// No region of this name, whose bits are to be shared, is declared before.
    UnknownRegion { word: Name },
    /// The region of this name ends behind the end of the region whose bits it shares.
    ShareOutside { word: Name },
    /// The first bit of the region of this name, counted in the region without SHARING below it, is no multiple of its type's size.
    Misaligned { word: Name },
    /// The regions without SHARING have this many bits so far, or at least 2^64 − 1: more than 65,536.
    MemoryTooLarge { bits: u64 },
    /// Memory ran out.
    OutOfMemory,
}

impl From<AllocError> for LayoutFault {
    ghost from_gives = { λ _ e. e ≡ OutOfMemory };

    fn from(_e: AllocError) -> LayoutFault {
        LayoutFault::OutOfMemory
    }
}

impl<T: Drop> From<AllocFailed<T>> for LayoutFault {
    ghost from_gives = { λ _ e. e ≡ OutOfMemory };

    fn from(_e: AllocFailed<T>) -> LayoutFault {
        LayoutFault::OutOfMemory
    }
}
