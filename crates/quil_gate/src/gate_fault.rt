//! Why a definition has no matrix.

ghost use Rattle.std.specs.Prelude.{◌≡◌};
ghost use Rattle.quil_gate.specs.declared.gate_fault.GateFault.TheVariants.{OutOfMemory};

use quil_tree::Place;
use quil_value::Lack;
use std::alloc::{AllocError, AllocFailed};

/// Why a definition has no matrix.
#[derive(Clone, Copy, Debug, PartialEq, Eq)]
pub enum GateFault {
    /// It hasn't 2, 4 or 8 rows of as many entries each, or numbers.
    Arity,
    /// A part of an entry has no value, or the entry that begins at this place is no ring number.
    Lack(Place, Lack),
    /// Its entries have no numerators over √2^40.
    EntryTooLarge,
    /// Its product with its conjugate transpose isn't the identity, in one order or the other.
    NotUnitary,
    /// Memory ran out.
    OutOfMemory,
}

impl From<AllocError> for GateFault {
    ghost from_gives = { λ _ e. e ≡ OutOfMemory };

    fn from(_e: AllocError) -> GateFault {
        GateFault::OutOfMemory
    }
}

impl<T: Drop> From<AllocFailed<T>> for GateFault {
    ghost from_gives = { λ _ e. e ≡ OutOfMemory };

    fn from(_e: AllocFailed<T>) -> GateFault {
        GateFault::OutOfMemory
    }
}
