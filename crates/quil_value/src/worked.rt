//! What an expression comes to.

ghost use Rattle.std.specs.Prelude.{◌≡◌, IfOk};

use crate::sums::CellSum;
use crate::value::Value;
use std::alloc::{AllocError, Global};

/// What an expression is worked out to.
#[derive(Drop)]
pub enum Worked {
    /// Without memory references: its value.
    Plain(Value),
    /// With memory references: a rational sum of cells.
    Summed(CellSum),
}

impl Worked {
    /// The same value or sum.
    pub fn copied(&self, alloc: Global) -> Result<Worked, AllocError>
        ensures { IfOk result (λ w. w ≡ self.now) }
    {
        match self {
            Worked::Plain(value) => Ok(Worked::Plain(*value)),
            Worked::Summed(sum) => Ok(Worked::Summed(sum.copied(alloc)?)),
        }
    }
}
