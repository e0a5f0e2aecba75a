//! Lost tasks.

ghost use Rattle.std.specs.Prelude.{◌≡◌, ◌++◌, ◌∷◌, [], None, OnOk, OnErr};
ghost use Rattle.script_eval.specs.Lost.{loss_at};

use flow_base::Path;
use indexmap::IndexMap;
use std::alloc::{AllocError, Global};
use std::marker::Model;

/// The tasks that are lost, by their paths, each with the number of its manager. Contracts see the list
/// of them, in the order in which they were added.
#[derive(Drop)]
pub struct Losses {
    // for each path, as its numbers, the manager
    managers: IndexMap<Vec<u32>, u32>,
}

impl Model for Losses {
    ghost use Rattle.std.specs.Prelude.{vec_items};
    ghost use Rattle.script_eval.specs.Lost.{Lost};
    ghost use Rattle.script_eval.specs.Entries.{lost_in};

    ghost Value = { Lost };

    ghost view = { λ l. lost_in vec_items l.managers.entries };
}

impl Losses {
    /// No task is lost.
    pub fn new(alloc: Global) -> Losses
        ensures { result ≡ [] }
    {
        Losses {
            managers: IndexMap::new(alloc),
        }
    }

    /// One more task is lost, with its manager. A refused call leaves them as they were; only want of
    /// memory refuses it.
    pub fn add(&mut self, alloc: Global, path: &Path, manager: u32) -> Result<(), AllocError>
        requires { loss_at self.old path.now ≡ None }
        ensures added { OnOk result (self.new ≡ self.old ++ (path.now, manager) ∷ []) }
        ensures err { OnErr result (self.new ≡ self.old) }
    {
        let key = Vec::from_slice(alloc, path.as_slice())?;
        self.managers.insert(key, manager)?;
        Ok(())
    }

    /// The manager with which a task is lost, or none where it isn't lost.
    pub fn manager(&self, path: &Path) -> Option<u32>
        ensures { result ≡ loss_at self.now path.now }
    {
        self.managers.get(path.as_slice()).copied()
    }
}
