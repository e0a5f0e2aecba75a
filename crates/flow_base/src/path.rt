//! The names of tasks.

ghost use Rattle.std.specs.Prelude.{◌≡◌, ◌++◌, ◌∷◌, [], ◌<◌, ◌≤◌, length, slice_get, IfOk, OnOk, OnErr};
ghost use Rattle.flow_base.specs.Paths.{max_path};

use sqlite_items::Items as ListOf;
use std::alloc::{AllocError, Global};
use std::marker::Model;

/// The name of a task: the numbers of the calls that lead to it, each counted from 1. Contracts see
/// the list of these numbers.
#[derive(Drop)]
pub struct Path {
    numbers: Vec<u32>,
}

/// A list of paths.
pub type Paths = ListOf<Path>;

/// The most numbers of a task's path.
pub const MAX_PATH: usize = 64;

impl Model for Path {
    ghost use Rattle.std.specs.Prelude.{List, ℕ};

    ghost Value = { List ℕ };

    ghost view = { λ p. p.numbers.items };
}

impl Path {
    /// The path of main itself, which has no number.
    pub fn new(alloc: Global) -> Path
        ensures { result ≡ [] }
    {
        Path {
            numbers: Vec::new(alloc),
        }
    }

    /// The path of the k-th call of this task.
    pub fn child(&self, alloc: Global, k: u32) -> Result<Path, AllocError>
        requires short { length self.now < max_path }
        requires counted { 1 ≤ k }
        ensures { IfOk result (λ path. path ≡ self.now ++ k ∷ []) }
    {
        let mut path = self.copy(alloc)?;
        path.numbers.push(k)?;
        Ok(path)
    }

    /// An equal path.
    pub fn copy(&self, alloc: Global) -> Result<Path, AllocError>
        ensures { IfOk result (λ path. path ≡ self.now) }
    {
        Ok(Path {
            numbers: Vec::from_slice(alloc, self.numbers.as_slice())?,
        })
    }

    /// One more number at its end.
    pub fn push(&mut self, number: u32) -> Result<(), AllocError>
        ensures ok { OnOk result (self.new ≡ self.old ++ number ∷ []) }
        ensures err { OnErr result (self.new ≡ self.old) }
    {
        self.numbers.push(number)?;
        Ok(())
    }

    /// How many numbers it has.
    pub fn len(&self) -> usize
        ensures { result ≡ length self.now }
    {
        self.numbers.len()
    }

    /// The number at a place, counted from 0.
    pub fn get(&self, place: usize) -> Option<u32>
        ensures { result ≡ slice_get self.now place }
    {
        self.numbers.get(place).copied()
    }

    /// Its numbers.
    pub fn as_slice(&self) -> &[u32]
        ensures { result.now ≡ self.now }
    {
        self.numbers.as_slice()
    }
}
