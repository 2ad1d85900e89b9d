//! A text that is written from its end.

ghost use Rattle.std.specs.Prelude.{◌≡◌, [], ◌++◌, reverse, OnOk};

use std::alloc::{AllocError, Global};
use std::marker::Model;

/// The end of a text, of which more is put before what is there. Its bytes are kept the last one first.
#[derive(Drop)]
pub(crate) struct Backwards {
    bytes: Vec<u8>,
}

impl Model for Backwards {
    ghost use Rattle.std.specs.Prelude.{ℕ, List, reverse};

    ghost Value = { List ℕ };

    ghost view = { λ t. reverse t.bytes.items };
}

impl Backwards {
    /// No text. Takes no memory.
    pub(crate) fn new(alloc: Global) -> Backwards
        ensures { result ≡ [] }
    {
        Backwards {
            bytes: Vec::new(alloc),
        }
    }

    /// Puts a text before what is there.
    pub(crate) fn put(&mut self, text: &[u8]) -> Result<(), AllocError>
        ensures { OnOk result (self.new ≡ text.now ++ self.old) }
    {
        push_reversed(&mut self.bytes, text)
    }

    /// Writes the whole behind another text.
    pub(crate) fn append_to(mut self, text: &mut Vec<u8>) -> Result<(), AllocError>
        ensures { OnOk result (text.new.items ≡ text.old.items ++ self) }
    {
        self.bytes.reverse();
        text.extend_from_slice(&self.bytes)
    }
}

fn push_reversed(bytes: &mut Vec<u8>, mut text: &[u8]) -> Result<(), AllocError>
    ensures { OnOk result (reverse bytes.new.items ≡ text.entry.now ++ reverse bytes.old.items) }
{
    while let [rest @ .., byte] = text {
        bytes.push(*byte)?;
        text = rest;
    }
    Ok(())
}
