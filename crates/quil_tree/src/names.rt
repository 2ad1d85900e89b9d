//! The names that a definition gives to what stands in its body.

ghost use Rattle.std.specs.Prelude.{◌≡◌, [], bytes_eq, option_copied, slice_get, IfOk, OnOk};
ghost use Rattle.std.specs.List.{list_any, position_or_len};
ghost use Rattle.quil_tree.specs.Names.{distinct, texts_of, with_name};

use crate::statement::Name;
use indexmap::IndexSet;
use std::alloc::{AllocError, Global};
use std::marker::Model;

/// Names, each once, in the order of their first appearance. A name's number is how many stand before it.
#[derive(Drop)]
pub struct NameSet {
    names: IndexSet<Vec<u8>>,
}

impl Model for NameSet {
    ghost use Rattle.std.specs.Prelude.{ℕ, List, map};

    ghost Value = { List (List ℕ) };

    ghost view = { λ s. map (λ name. name.items) s.names.keys };
}

impl NameSet {
    /// No names. Takes no memory.
    pub fn new(alloc: Global) -> NameSet
        ensures { result ≡ [] }
    {
        NameSet {
            names: IndexSet::new(alloc),
        }
    }

    /// These names, which may stand in the list more than once.
    pub fn of(alloc: Global, mut names: &[Name]) -> Result<NameSet, AllocError>
        ensures { IfOk result (λ set. set ≡ distinct (texts_of names.entry.now)) }
    {
        let mut set = NameSet::new(alloc);
        while let [name, rest @ ..] = names {
            set.insert(alloc, name.text.as_bytes())?;
            names = rest;
        }
        Ok(set)
    }

    // Adds a name, where it is none of those before it.
    fn insert(&mut self, alloc: Global, name: &[u8]) -> Result<(), AllocError>
        ensures { OnOk result (self.new ≡ with_name self.old name.now) }
    {
        let key = Vec::from_slice(alloc, name)?;
        self.names.insert(key)?;
        Ok(())
    }

    /// One of the names is spelled so.
    pub fn contains(&self, text: &[u8]) -> bool
        ensures { result ≡ list_any (bytes_eq text.now) self.now }
    {
        self.names.contains(text)
    }

    /// How many of the names stand before the one that is spelled so: all, where none is.
    pub fn number_of(&self, text: &[u8]) -> usize
        ensures { result ≡ position_or_len (bytes_eq text.now) self.now }
    {
        match self.names.get_index_of(text) {
            Some(index) => index,
            None => self.names.len(),
        }
    }

    /// The name with this number.
    pub fn get(&self, number: usize) -> Option<&[u8]>
        ensures { option_copied result ≡ slice_get self.now number }
    {
        match self.names.get_index(number) {
            Some(name) => Some(name.as_slice()),
            None => None,
        }
    }
}
