//! A stack of what parts of an expression are worked out to.

ghost use Rattle.std.specs.Prelude.{◌≡◌, [], ◌∷◌, OnOk};
ghost use Rattle.quil_value.specs.Runs.{with_part};

use crate::worked::Worked;
use std::alloc::{AllocError, Global};
use std::marker::Model;

/// What parts are worked out to: the last one on top.
#[derive(Drop)]
pub(crate) struct Stack {
    parts: Vec<Worked>,
}

impl Model for Stack {
    ghost use Rattle.std.specs.Prelude.{List, reverse};
    ghost use Rattle.quil_value.specs.declared.worked.Worked.{Worked};

    ghost Value = { List Worked };

    ghost view = { λ s. reverse s.parts.items };
}

impl Stack {
    /// No part. Takes no memory.
    pub(crate) fn new(alloc: Global) -> Stack
        ensures { result ≡ [] }
    {
        Stack {
            parts: Vec::new(alloc),
        }
    }

    /// Puts a part on top.
    pub(crate) fn push(&mut self, part: Worked) -> Result<(), AllocError>
        ensures { OnOk result (self.new ≡ part ∷ self.old) }
    {
        self.parts.push(part)?;
        Ok(())
    }

    /// Takes the part on top.
    pub(crate) fn pop(&mut self) -> Option<Worked>
        ensures { self.old ≡ with_part result self.new }
    {
        self.parts.pop()
    }
}
