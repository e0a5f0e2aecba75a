//! The slots of a body's variables.

ghost use Rattle.std.specs.Prelude.{◌≡◌, [], Some, length, slice_get, IfOk};
ghost use Rattle.body_program.specs.Resolved.{Grows, IsDistinct};

use app_index::NameTable;
use flow_base::Text;
use std::alloc::{AllocError, Global};
use std::marker::Model;

/// Names of variables, each once. Contracts see the list of them; the place of a name is its slot.
#[derive(Drop)]
pub struct SlotNames<'a> {
    names: NameTable<'a>,
}

impl<'a> Model for SlotNames<'a> {
    ghost use Rattle.std.specs.Prelude.{List, ℕ};

    ghost Value = { List (List ℕ) };

    ghost view = { λ n. n.names };
}

impl<'a> SlotNames<'a> {
    /// No names.
    pub fn new(alloc: Global) -> SlotNames<'a>
        ensures { result ≡ [] }
    {
        SlotNames {
            names: NameTable::new(alloc),
        }
    }

    /// How many there are, none of them twice.
    pub fn len(&self) -> usize
        ensures len { result ≡ length self.now }
        ensures distinct { IsDistinct self.now }
    {
        self.names.len()
    }

    /// The slot of a name, which is added at the end where it isn't there.
    pub fn slot(&mut self, name: &'a Text) -> Result<usize, AllocError>
        ensures grows { Grows self.old self.new }
        ensures slot { IfOk result (λ slot. slice_get self.new slot ≡ Some name.now) }
    {
        self.names.insert(name.as_str())
    }
}
