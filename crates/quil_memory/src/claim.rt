//! Declarations of regions.

ghost use Rattle.std.specs.Prelude.{◌≡◌, [], ◌∷◌, ◌++◌, List, OnOk, OnErr};

use crate::cell_type::CellType;
use crate::name::Name;
use std::alloc::{AllocFailed, Global};
use std::marker::Model;

/// A part of an offset: so many cells of a type.
#[derive(Clone, Copy, Debug, PartialEq, Eq)]
pub struct Offset {
    pub count: u64,
    pub kind: CellType,
}

/// The parts of an offset, which is their sum in bits.
#[derive(Drop)]
pub struct Offsets {
    parts: Vec<Offset>,
}

impl Model for Offsets {
    ghost use Rattle.std.specs.Prelude.{List};
    ghost use Rattle.quil_memory.specs.declared.claim.Offset.{Offset};

    ghost Value = { List Offset };

    ghost view = { λ o. o.parts.items };
}

impl Offsets {
    /// No offset. Takes no memory.
    pub fn new(alloc: Global) -> Offsets
        ensures { result ≡ [] }
    {
        Offsets {
            parts: Vec::new(alloc),
        }
    }

    /// The parts.
    pub fn as_slice(&self) -> &[Offset]
        ensures { result.now ≡ self.now }
    {
        &self.parts
    }

    /// Adds a part behind the others.
    pub fn push(&mut self, part: Offset) -> Result<(), AllocFailed<Offset>>
        ensures pushed { OnOk result (self.new ≡ self.old ++ part ∷ []) }
        ensures unchanged { OnErr result (self.new ≡ self.old) }
    {
        self.parts.push(part)
    }
}

/// The region whose bits a declared region shares, and how far behind its first bit it begins.
#[derive(Drop)]
pub struct Share {
    pub base: Name,
    pub offsets: Offsets,
}

/// A declaration of a region of so many cells, with its line in the text.
#[derive(Drop)]
pub struct Claim {
    pub name: Name,
    pub kind: CellType,
    pub length: u64,
    pub share: Option<Share>,
    pub line: u32,
}
