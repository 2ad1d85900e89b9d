//! Why a text is refused.

ghost use Rattle.std.specs.Prelude.{◌≡◌};
ghost use Rattle.quil_grammar.specs.declared.fault.ReadFault.TheVariants.{OutOfMemory};

use quil_tree::Text;
use std::alloc::AllocError;

/// Why a text isn't read. Lines and columns count from 1, columns in bytes.
#[derive(Debug, PartialEq, Eq, Drop)]
pub enum ReadFault {
    /// A number is too large for its place; this is the place of its sign, where an operand has one.
    NumberTooWide { line: u32, column: u32 },
    /// No token begins at this byte.
    BadToken { line: u32, column: u32 },
    /// Nothing that may stand there begins with the tokens up to this one; or the tokens end too early, and then this is the
    /// place of the `;` that ends them, or the column behind the last byte of the line. A header without a body is so too, at the
    /// first token behind it, or behind the last byte of its line.
    Unexpected { line: u32, column: u32 },
    /// The language leaves out what this word begins.
    LeftOut { line: u32, word: Text },
    /// The text has this many bytes, more than 1,048,576.
    TextTooLong { length: u64 },
    /// Memory ran out.
    OutOfMemory,
}

impl From<AllocError> for ReadFault {
    ghost from_gives = { λ _ e. e ≡ OutOfMemory };

    fn from(_e: AllocError) -> ReadFault {
        ReadFault::OutOfMemory
    }
}
