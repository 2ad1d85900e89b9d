//! What `tokens` refuses.

ghost use Rattle.std.specs.Prelude.{◌≡◌};
ghost use Rattle.quil_lex.specs.declared.fault.LexFault.TheVariants.{OutOfMemory};

use std::alloc::AllocError;

/// Why a text has no tokens.
#[derive(Clone, Copy, Debug, PartialEq, Eq)]
pub enum LexFault {
    /// No token begins at this byte.
    BadToken { line: u32, column: u32 },
    /// Memory ran out.
    OutOfMemory,
}

impl From<AllocError> for LexFault {
    ghost from_gives = { λ _ e. e ≡ OutOfMemory };

    fn from(_error: AllocError) -> LexFault {
        LexFault::OutOfMemory
    }
}
