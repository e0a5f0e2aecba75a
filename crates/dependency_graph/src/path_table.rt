//! Paths with their places.

ghost use Rattle.std.specs.Prelude.{◌≡◌, ◌++◌, ◌∷◌, [], None, length, take, OnOk, OnErr};
ghost use Rattle.dependency_graph.specs.Places.{place_in, AreDistinct};

use flow_base::Path;
use indexmap::IndexSet;
use std::alloc::{AllocError, Global};
use std::marker::Model;

/// The paths of tasks, each once, in the order in which they were added. Contracts see the list of them.
#[derive(Drop)]
pub struct PathTable {
    // each as its numbers
    paths: IndexSet<Vec<u32>>,
}

impl Model for PathTable {
    ghost use Rattle.std.specs.Prelude.{List, ℕ, map, vec_items};

    ghost Value = { List (List ℕ) };

    ghost view = { λ table. map vec_items table.paths.keys };
}

impl PathTable {
    /// No paths.
    pub fn new(alloc: Global) -> PathTable
        ensures { result ≡ [] }
    {
        PathTable {
            paths: IndexSet::new(alloc),
        }
    }

    /// How many paths there are.
    pub fn len(&self) -> usize
        ensures { result ≡ length self.now }
    {
        self.paths.len()
    }

    /// The place of a path, counted from 0, or none where it isn't there.
    pub fn place(&self, path: &Path) -> Option<usize>
        ensures place { result ≡ place_in self.now path.now }
        ensures distinct { AreDistinct self.now }
    {
        let _ = self.paths.len();
        self.paths.get_index_of(path.as_slice())
    }

    /// Adds a path at the end. A refused call leaves the table as it was; only want of memory refuses it.
    pub fn add(&mut self, alloc: Global, path: &Path) -> Result<(), AllocError>
        requires { place_in self.old path.now ≡ None }
        ensures added { OnOk result (self.new ≡ self.old ++ path.now ∷ []) }
        ensures err { OnErr result (self.new ≡ self.old) }
    {
        let numbers = Vec::from_slice(alloc, path.as_slice())?;
        self.paths.insert(numbers)?;
        Ok(())
    }

    /// Keeps the first so many.
    pub fn truncate(&mut self, count: usize)
        ensures { self.new ≡ take count self.old }
    {
        self.paths.truncate(count);
    }
}
