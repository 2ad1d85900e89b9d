ghost use Rattle.std.specs.Prelude.{◌≡◌};
ghost use Rattle.qvm_io.specs.declared.errors.ReadError.TheVariants.{Failed as read_failed, OutOfMemory as read_out_of_memory};

pub use std::alloc::AllocError as OutOfMemory;

/// A read, a write or a draw failed, and the object that it was asked of counted the fault.
#[derive(Clone, Copy, Debug, PartialEq, Eq)]
pub struct Failed;

/// Why a whole input wasn't read.
#[derive(Clone, Copy, Debug, PartialEq, Eq)]
pub enum ReadError {
    /// A read failed, and the source counted the fault.
    Failed,
    /// There was no memory for the bytes.
    OutOfMemory,
}

impl From<Failed> for ReadError {
    ghost from_gives = { λ _ e. e ≡ read_failed };

    fn from(_e: Failed) -> ReadError {
        ReadError::Failed
    }
}

impl From<OutOfMemory> for ReadError {
    ghost from_gives = { λ _ e. e ≡ read_out_of_memory };

    fn from(_e: OutOfMemory) -> ReadError {
        ReadError::OutOfMemory
    }
}
