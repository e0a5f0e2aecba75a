//! Callbacks by number, each stored with the tasks that it waits for.

ghost use Rattle.std.specs.Prelude.{◌≡◌, ℕ, true, false, [], length, take, IfNone, OnOk, OnErr};
ghost use Rattle.dependency_graph.specs.declared.callback.CallbackKind.TheVariants as kind;
ghost use Rattle.dependency_graph.specs.Callbacks.{IsExact, IsReadyCallback, AreDistinctNumbers, AreBelow, state_in, is_open, with_launch, with_stored, with_state, next_of, with_given, has_number};

use crate::callback::{Callback, FutureState, StoredCallback};
use crate::counting::{count_open, lower_each, push_if};
use crate::rows::{push_each, reserve_each};
use crate::to_do::to_do;
use std::alloc::{AllocError, Global};
use std::marker::Model;

/// The states of tasks by number, and callbacks that wait for them. Contracts see the callbacks in the order in
/// which they were stored, and the numbers of those that became ready, in that order.
#[derive(Drop)]
pub struct CallbackTable {
    states: Vec<FutureState>,
    callbacks: Vec<StoredCallback>,
    // For each callback, how many of its inputs are open.
    counts: Vec<usize>,
    // For each task, the callbacks that wait for it.
    rows: Vec<Vec<usize>>,
    // The callbacks that became ready, and how many of them were given.
    made: Vec<usize>,
    given: usize,
}

impl Model for CallbackTable {
    ghost use Rattle.dependency_graph.specs.Callbacks.{Callbacks};
    ghost use Rattle.dependency_graph.specs.Kept.{callbacks_of, IsKept};
    ghost use Rattle.dependency_graph.specs.Rows.{rows_of};

    ghost Value = { Callbacks };

    ghost view = { λ g. callbacks_of g.states.items g.callbacks.items g.made.items g.given };

    ghost invariant = { λ g. IsKept (callbacks_of g.states.items g.callbacks.items g.made.items g.given) g.counts.items (rows_of g.rows.items) };
}

impl CallbackTable {
    /// No tasks and no callbacks.
    pub fn new(alloc: Global) -> CallbackTable
        ensures { result ≡ record { states = []; waits = []; made = []; given = 0 } }
    {
        CallbackTable {
            states: Vec::new(alloc),
            callbacks: Vec::new(alloc),
            counts: Vec::new(alloc),
            rows: Vec::new(alloc),
            made: Vec::new(alloc),
            given: 0,
        }
    }

    /// One more task, with the number behind the others, and its launch, which waits for these tasks. A
    /// refused call changes nothing; only want of memory refuses it.
    pub fn add(&mut self, alloc: Global, inputs: Vec<usize>) -> Result<(), AllocError>
        requires below { AreBelow (length self.old.states) inputs.items }
        requires distinct { AreDistinctNumbers inputs.items }
        ensures ok { OnOk result (self.new ≡ with_launch inputs.items self.old) }
        ensures err { OnErr result (self.new ≡ self.old) }
        ensures exact { IsExact self.old }
    {
        let task = self.states.len();
        let c = self.callbacks.len();
        let count = count_open(self.states.as_slice(), inputs.as_slice());
        self.states.reserve(1)?;
        self.callbacks.reserve(1)?;
        self.counts.reserve(1)?;
        self.made.reserve(1)?;
        reserve_each(&mut self.rows, inputs.as_slice())?;
        self.rows.push(Vec::new(alloc))?;
        push_each(&mut self.rows, inputs.as_slice(), c);
        self.states.push_reserved(FutureState::Open);
        self.counts.push_reserved(count);
        push_if(count == 0, c, &mut self.made);
        self.callbacks
            .push_reserved(StoredCallback::launch(task, inputs));
        Ok(())
    }

    /// What ends the join of a task, which waits for these tasks. A refused call changes nothing; only want of
    /// memory refuses it.
    pub fn wait_join(&mut self, task: usize, returned: Vec<usize>) -> Result<(), AllocError>
        requires below { AreBelow (length self.old.states) returned.items }
        requires distinct { AreDistinctNumbers returned.items }
        ensures ok { OnOk result (self.new ≡ with_stored (record { kind = kind.Join; task = task; inputs = returned.items }) self.old) }
        ensures err { OnErr result (self.new ≡ self.old) }
    {
        self.wait(StoredCallback::join(task, returned))
    }

    fn wait(&mut self, callback: StoredCallback) -> Result<(), AllocError>
        requires below { AreBelow (length self.old.states) callback.inputs }
        requires distinct { AreDistinctNumbers callback.inputs }
        ensures ok { OnOk result (self.new ≡ with_stored callback self.old) }
        ensures err { OnErr result (self.new ≡ self.old) }
    {
        let c = self.callbacks.len();
        let count = count_open(self.states.as_slice(), callback.inputs.as_slice());
        self.callbacks.reserve(1)?;
        self.counts.reserve(1)?;
        self.made.reserve(1)?;
        reserve_each(&mut self.rows, callback.inputs.as_slice())?;
        push_each(&mut self.rows, callback.inputs.as_slice(), c);
        self.counts.push_reserved(count);
        push_if(count == 0, c, &mut self.made);
        self.callbacks.push_reserved(callback);
        Ok(())
    }

    /// Settles an open task, and makes each callback ready that waited for it alone. A refused call changes
    /// nothing; only want of memory refuses it.
    pub fn settle(&mut self, task: usize, state: FutureState) -> Result<(), AllocError>
        requires opened { is_open (state_in self.old.states task) ≡ true }
        requires closes { is_open state ≡ false }
        ensures ok { OnOk result (self.new ≡ with_state task state self.old) }
        ensures err { OnErr result (self.new ≡ self.old) }
    {
        self.made.reserve(self.rows[task].len())?;
        self.states[task] = state;
        lower_each(self.rows[task].as_slice(), &mut self.counts, &mut self.made);
        Ok(())
    }

    /// What holds of every table: each callback becomes ready once, when all that it waits for is settled.
    pub fn facts(&self)
        ensures { IsExact self.now }
    {
        let _ = self.states.len();
    }

    /// The first callback that is ready and wasn't given yet. None exactly where there is none.
    pub fn next_callback(&mut self) -> Option<Callback>
        ensures is { result ≡ next_of self.old }
        ensures after { self.new ≡ with_given self.old }
        ensures none { IfNone result ((c : ℕ) → IsReadyCallback self.old c → has_number c (take self.old.given self.old.made) ≡ true) }
        ensures exact { IsExact self.old }
    {
        let c = *self.made.get(self.given)?;
        self.given += 1;
        Some(to_do(self.states.as_slice(), &self.callbacks[c]))
    }
}
