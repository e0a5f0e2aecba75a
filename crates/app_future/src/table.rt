//! A table of futures.

ghost use Rattle.std.specs.Prelude.{◌≡◌, ◌++◌, ◌∷◌, [], None, Some, is_some, IfOk, OnOk, OnErr};
ghost use Rattle.std.specs.Option.{option_copied};
ghost use Rattle.app_future.specs.Futures.{Future, IsOpen, Grows, found, outcome_of, settled, file_in, file_of};

use crate::future::{AppFuture, DataFuture};
use flow_base::{FileOut, Outcome, Path};
use indexmap::IndexMap;
use sqlite_items::at;
use std::alloc::{AllocError, Global};
use std::marker::Model;

// What is known of a task. Contracts see it as a future.
#[derive(Drop)]
struct FutureRecord {
    outputs: u32,
    outcome: Option<Outcome>,
}

impl Model for FutureRecord {
    ghost use Rattle.std.specs.Coded.{codes};
    ghost use Rattle.flow_base.specs.contracts.value.Value as value;
    ghost use Rattle.app_future.specs.Futures.{Future};

    ghost Value = { Future };

    ghost coded = { Prim.hlevel (codes, value.the_row.coded) };

    ghost view = { λ e. record { outputs = e.outputs; outcome = e.outcome } };
}

impl FutureRecord {
    fn open(outputs: u32) -> FutureRecord
        ensures { result ≡ record { outputs = outputs; outcome = None } }
    {
        FutureRecord {
            outputs,
            outcome: None,
        }
    }

    fn settle(&mut self, outcome: Outcome)
        ensures { self.new ≡ record { outputs = self.old.outputs; outcome = Some outcome } }
    {
        self.outcome = Some(outcome);
    }

    fn outcome(&self) -> Option<&Outcome>
        ensures { option_copied result ≡ self.now.outcome }
    {
        self.outcome.as_ref()
    }
}

/// The futures of tasks by their paths. Contracts see the list of them, in the order in which they
/// were added.
#[derive(Drop)]
pub struct FutureTable {
    // for each path, as its numbers, what is known of its task
    futures: IndexMap<Vec<u32>, FutureRecord>,
}

impl Model for FutureTable {
    ghost use Rattle.std.specs.Prelude.{vec_items};
    ghost use Rattle.std.specs.Coded.{codes};
    ghost use Rattle.flow_base.specs.contracts.value.Value as value;
    ghost use Rattle.app_future.specs.Futures.{Table};
    ghost use Rattle.app_future.specs.Entries.{table_of};

    ghost Value = { Table };

    ghost coded = { Prim.hlevel (codes, value.the_row.coded) };

    ghost view = { λ t. table_of vec_items t.futures.entries };
}

impl FutureTable {
    /// A table of no futures.
    pub fn new(alloc: Global) -> FutureTable
        ensures { result ≡ [] }
    {
        FutureTable {
            futures: IndexMap::new(alloc),
        }
    }

    /// Adds the future of a task that isn't settled, whose app has so many outputs. A refused call
    /// leaves the table as it was; only want of memory refuses it.
    pub fn add(&mut self, alloc: Global, path: Path, outputs: u32) -> Result<AppFuture, AllocError>
        requires { found self.old path ≡ None }
        ensures future { IfOk result (λ future. future ≡ record { path = path; outputs = outputs }) }
        ensures added { OnOk result (self.new ≡ self.old ++ (path, record { outputs = outputs; outcome = None }) ∷ []) }
        ensures err { OnErr result (self.new ≡ self.old) }
        ensures grows { Grows self.old self.new }
    {
        let key = Vec::from_slice(alloc, path.as_slice())?;
        self.futures.insert(key, FutureRecord::open(outputs))?;
        Ok(AppFuture { path, outputs })
    }

    /// Gives the task of this path its outcome, once. No memory is taken.
    pub fn settle(&mut self, path: &Path, outcome: Outcome)
        requires { IsOpen self.old path.now }
        ensures settled { self.new ≡ settled self.old path.now outcome }
        ensures closed { IsOpen self.new path.now → ⊥ }
        ensures grows { Grows self.old self.new }
    {
        match self.futures.get_mut(path.as_slice()) {
            Some(entry) => entry.settle(outcome),
            None => unreachable!(),
        }
    }

    /// The outcome of the task of this path, once it is settled.
    pub fn outcome(&self, path: &Path) -> Option<&Outcome>
        ensures { option_copied result ≡ outcome_of self.now path.now }
    {
        match self.futures.get(path.as_slice()) {
            Some(entry) => entry.outcome(),
            None => None,
        }
    }

    /// Whether the task of this path is settled.
    pub fn done(&self, path: &Path) -> bool
        ensures { result ≡ is_some (outcome_of self.now path.now) }
    {
        self.outcome(path).is_some()
    }

    /// The file that a DataFuture stands for, once its task is settled with a value that has such a file.
    pub fn file(&self, future: &DataFuture) -> Option<&FileOut>
        ensures { option_copied result ≡ file_of self.now future.now.path future.now.index }
    {
        match self.outcome(&future.path) {
            Some(outcome) => file_in(outcome, future.index),
            None => None,
        }
    }
}

fn file_in(outcome: &Outcome, index: u32) -> Option<&FileOut>
    ensures { option_copied result ≡ file_in (Some outcome.now) index }
{
    match outcome {
        Outcome::Value { files, .. } => at(files.as_slice(), index as usize),
        Outcome::Failed(_) => None,
    }
}
