//! The graph of a run: its tasks, the callbacks that wait for them, and the monitors.

ghost use Rattle.std.specs.Prelude.{◌≡◌, ℕ, true, [], map, take, IfNone, IfOk, OnOk, OnErr};
ghost use Rattle.dependency_graph.specs.Callbacks.{IsExact, IsReadyCallback, next_of, has_number};
ghost use Rattle.dependency_graph.specs.Graphs.{CanAdd, CanWaitJoin, IsOpenTask, AreThere, ToldSome, places_in, with_task, with_join, with_settlement, with_next};
ghost use Rattle.dependency_graph.specs.Monitors.{ToldFirst, tell};

use crate::callback::{Callback, state_of};
use crate::callback_table::CallbackTable;
use crate::monitor::{Monitor, Settlement};
use crate::path_table::PathTable;
use flow_base::Path;
use std::alloc::{AllocError, Global};
use std::marker::Model;

/// The tasks of a run with the callbacks that wait for them, and the monitors. Each callback becomes ready once,
/// when the last future that it waits for is settled. Tasks have their numbers from 0, in the order in which they
/// were added.
#[derive(Drop)]
pub struct Graph<M: Monitor> {
    paths: PathTable,
    table: CallbackTable,
    monitors: Vec<M>,
}

impl<M: Monitor> Model for Graph<M> {
    ghost use Rattle.std.specs.Prelude.{◌≡◌, length, map};
    ghost use Rattle.std.specs.Coded.{codes};
    ghost use Rattle.flow_base.specs.contracts.value.Value as value;
    ghost use Rattle.dependency_graph.specs.Graphs.{Graph as View};

    ghost Value = { View };

    ghost coded = { Prim.hlevel (codes, value.the_row.coded) };

    ghost view = { λ g. record { paths = g.paths; callbacks = g.table; told = map M.told g.monitors.items } };

    ghost invariant = { λ g. length g.paths ≡ length (g.table).states };
}

impl<M: Monitor> Graph<M> {
    /// No tasks, no callbacks, no monitors.
    pub fn new(alloc: Global) -> Graph<M>
        ensures { result ≡ record { paths = []; callbacks = record { states = []; waits = []; made = []; given = 0 }; told = [] } }
    {
        Graph {
            paths: PathTable::new(alloc),
            table: CallbackTable::new(alloc),
            monitors: Vec::new(alloc),
        }
    }

    /// Stores the monitors. None is to be stored already.
    pub fn add_monitors(&mut self, monitors: Vec<M>)
        requires { self.old.told ≡ [] }
        ensures { self.new ≡ record self.old { told = map M.told monitors.items } }
    {
        self.monitors = monitors;
    }

    /// Adds a task with its launch, which waits for these tasks. A refused call changes nothing; only want of memory
    /// refuses it.
    pub fn add(&mut self, alloc: Global, path: &Path, inputs: &[Path]) -> Result<(), AllocError>
        requires { CanAdd self.old path.now inputs.now }
        ensures ok { OnOk result (self.new ≡ with_task path.now inputs.now self.old) }
        ensures err { OnErr result (self.new ≡ self.old) }
    {
        let places = places_of(alloc, &self.paths, inputs)?;
        let count = self.paths.len();
        self.paths.add(alloc, path)?;
        if self.table.add(alloc, places).is_err() {
            self.paths.truncate(count);
            return Err(AllocError);
        }
        Ok(())
    }

    /// Stores what ends the join of a task, once all these are settled that its body returned. A refused call changes
    /// nothing; only want of memory refuses it.
    pub fn wait_join(
        &mut self,
        alloc: Global,
        path: &Path,
        returned: &[Path],
    ) -> Result<(), AllocError>
        requires { CanWaitJoin self.old path.now returned.now }
        ensures ok { OnOk result (self.new ≡ with_join path.now returned.now self.old) }
        ensures err { OnErr result (self.new ≡ self.old) }
    {
        let places = places_of(alloc, &self.paths, returned)?;
        match self.paths.place(path) {
            Some(task) => self.table.wait_join(task, places),
            None => unreachable!(),
        }
    }

    /// Settles a task: tells each monitor once, in their order, and makes each callback ready that waited for this
    /// task last. Only want of memory refuses it; then some monitors may have been told, and all else is as it was.
    pub fn settled(&mut self, settlement: &Settlement) -> Result<(), AllocError>
        requires { IsOpenTask self.old settlement.now.path }
        ensures ok { OnOk result (self.new ≡ with_settlement settlement.now self.old) }
        ensures err { OnErr result (ToldSome settlement.now self.old self.new) }
    {
        tell_all(&mut self.monitors, settlement)?;
        match self.paths.place(&settlement.path) {
            Some(task) => self.table.settle(task, state_of(&settlement.outcome)),
            None => unreachable!(),
        }
    }

    /// What holds of every graph: each callback becomes ready once, when all that it waits for is settled.
    pub fn facts(&self)
        ensures { IsExact self.now.callbacks }
    {
        self.table.facts();
    }

    /// The first callback that is ready and wasn't given yet, in the order in which they became ready; those that one
    /// settlement made ready stand in the order in which they were stored. None exactly where there is none.
    pub fn next_callback(&mut self) -> Option<Callback>
        ensures is { result ≡ next_of self.old.callbacks }
        ensures after { self.new ≡ with_next self.old }
        ensures none { IfNone result ((c : ℕ) → IsReadyCallback self.old.callbacks c → has_number c (take self.old.callbacks.given self.old.callbacks.made) ≡ true) }
        ensures exact { IsExact self.old.callbacks }
    {
        self.table.next_callback()
    }

    /// The monitors.
    pub fn into_monitors(self) -> Vec<M>
        ensures { map M.told result.items ≡ self.told }
    {
        let Graph { monitors, .. } = self;
        monitors
    }
}

// The numbers of these tasks.
fn places_of(alloc: Global, paths: &PathTable, tasks: &[Path]) -> Result<Vec<usize>, AllocError>
    requires { AreThere paths.now tasks.now }
    ensures { IfOk result (λ places. places.items ≡ places_in paths.now tasks.now) }
{
    let mut places = Vec::new(alloc);
    for task in tasks {
        match paths.place(task) {
            Some(place) => places.push(place)?,
            None => unreachable!(),
        }
    }
    Ok(places)
}

// Tells each monitor, up to one that finds no memory.
fn tell_all<M: Monitor>(monitors: &mut Vec<M>, settlement: &Settlement) -> Result<(), AllocError>
    ensures ok { OnOk result (map M.told monitors.new.items ≡ tell settlement.now (map M.told monitors.old.items)) }
    ensures err { OnErr result (ToldFirst settlement.now (map M.told monitors.old.items) (map M.told monitors.new.items)) }
{
    for i in 0..monitors.len() {
        monitors[i].settled(settlement)?;
    }
    Ok(())
}
