//! Names, each once, with their places.

ghost use Rattle.std.specs.Prelude.{◌≡◌, [], Some, length, slice_get, take, IfOk, OnErr, OnOk};
ghost use Rattle.app_index.specs.Names.{is_among, with_name, IsDistinct};

use indexmap::IndexSet;
use std::alloc::{AllocError, Global};
use std::marker::Model;

/// Names, each once, in the order in which they came. Contracts see the list of them.
#[derive(Drop)]
pub struct NameTable<'a> {
    names: IndexSet<&'a str>,
}

impl<'a> Model for NameTable<'a> {
    ghost use Rattle.std.specs.Prelude.{List, ℕ, map};

    ghost Value = { List (List ℕ) };

    ghost view = { λ table. map (λ name. name.now) table.names.keys };
}

impl<'a> NameTable<'a> {
    /// No names.
    pub fn new(alloc: Global) -> NameTable<'a>
        ensures { result ≡ [] }
    {
        NameTable {
            names: IndexSet::new(alloc),
        }
    }

    /// How many there are, none of them twice.
    pub fn len(&self) -> usize
        ensures len { result ≡ length self.now }
        ensures distinct { IsDistinct self.now }
    {
        self.names.len()
    }

    /// Whether it is among them.
    pub fn has(&self, name: &str) -> bool
        ensures { result ≡ is_among self.now name.now }
    {
        self.names.contains(name)
    }

    /// The place of a name, which is added at the end where it isn't there. Without memory for it nothing changes.
    pub fn insert(&mut self, name: &'a str) -> Result<usize, AllocError>
        ensures names { OnOk result (self.new ≡ with_name self.old name.now) }
        ensures place { IfOk result (λ place. slice_get self.new place ≡ Some name.now) }
        ensures unchanged { OnErr result (self.new ≡ self.old) }
    {
        let (place, _) = self.names.insert_full(name)?;
        Ok(place)
    }

    /// Keeps the first so many.
    pub fn truncate(&mut self, count: usize)
        ensures { self.new ≡ take count self.old }
    {
        self.names.truncate(count);
    }
}
