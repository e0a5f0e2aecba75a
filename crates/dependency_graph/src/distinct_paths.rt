//! Paths, each once.

ghost use Rattle.std.specs.Prelude.{◌≡◌, [], OnOk, OnErr};
ghost use Rattle.dependency_graph.specs.Added.{added};

use crate::path_table::PathTable;
use flow_base::{Path, Paths};
use std::alloc::{AllocError, Global};
use std::marker::Model;

/// Paths, each once, in the order in which they were first added. Contracts see the list of them.
#[derive(Drop)]
pub struct DistinctPaths {
    paths: Paths,
    // the same, to be found by their numbers
    places: PathTable,
}

impl Model for DistinctPaths {
    ghost use Rattle.std.specs.Prelude.{◌≡◌, List, ℕ};

    ghost Value = { List (List ℕ) };

    ghost view = { λ all. all.paths };

    ghost invariant = { λ all. all.places ≡ all.paths };
}

impl DistinctPaths {
    /// No paths.
    pub fn new(alloc: Global) -> DistinctPaths
        ensures { result ≡ [] }
    {
        DistinctPaths {
            paths: Paths::new(alloc),
            places: PathTable::new(alloc),
        }
    }

    /// One more, unless it is among them. Only want of memory refuses it.
    pub fn add(&mut self, alloc: Global, path: &Path) -> Result<(), AllocError>
        ensures ok { OnOk result (self.new ≡ added self.old path.now) }
        ensures err { OnErr result (self.new ≡ self.old) }
    {
        if self.places.place(path).is_some() {
            return Ok(());
        }
        let copy = path.copy(alloc)?;
        let count = self.places.len();
        self.places.add(alloc, path)?;
        if self.paths.push(copy).is_err() {
            self.places.truncate(count);
            return Err(AllocError);
        }
        Ok(())
    }

    /// The paths.
    pub fn into_paths(self) -> Paths
        ensures { result ≡ self }
    {
        let DistinctPaths { paths, .. } = self;
        paths
    }
}
