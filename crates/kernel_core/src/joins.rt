//! The acts of joins: a body runs and its calls are submitted, and its task settles once they have.

ghost use Rattle.std.specs.Prelude.{◌≡◌, ◌++◌, ◌≤◌, ◌+◌, ◌-◌, ◌^◌, ◌∷◌, length, map, min, sum, vec_len, vec_capacity, IfOk, OnOk, OnErr, IfErr};
ghost use Rattle.event_log.specs.declared.entry.Entry.TheVariants as entry;
ghost use Rattle.dependency_graph.specs.Graphs.{IsOpenTask, with_settlement};
ghost use Rattle.dependency_graph.specs.Places.{AreDistinct};
ghost use Rattle.flow_meaning.specs.Sequential as sequential;
ghost use Rattle.join_apps.specs.Bodies.{calls_of, result_of};
ghost use Rattle.kernel_model.specs.Known.{begin_at, known, path_at};
ghost use Rattle.kernel_model.specs.Acts.{joined, settlement_of};
ghost use Rattle.kernel_model.specs.Limits.{IsRefusedFor, units_of_call};
ghost use Rattle.kernel_model.specs.Turns.{IsJoinDone, carried_out};
ghost use Rattle.kernel_core.specs.Joins.{AddsCalls, CanRunJoin, IsOver, JoinEnds, new_tasks, submissions, task_paths};
ghost use Rattle.agenda_model.specs.Storing.{CanAddAll, CanStoreJoin, CanStoreJoinOf, IsJoinStored, with_join_run, with_tasks};
ghost use Rattle.kernel_core.specs.Settlements.{MayTell};

use crate::main_acts::{add_call, app_name};
use crate::run_state::RunState;
use crate::task::{Task, status_of};
use dependency_graph::{Graph, Monitor, PathTable, Settlement};
use event_log::Entry;
use flow_base::{Ended, Items, Path};
use join_apps::{BodyFault, Calls, JoinBody, JoinCall, awaited_of, join_outcome, run_body};
use kernel_model::Refusal;
use script_tree::tree::AppDef;
use std::alloc::{AllocError, Global};
use stored_units::{MAX_STORED, MAX_TASKS, call_units, outcome_units};
use task_record::TaskRecord;

impl RunState {
    /// The body of a join runs on these values, and its calls are submitted. The graph gets their launches, and
    /// what ends the join.
    pub fn run_join<M: Monitor>(
        &mut self,
        graph: &mut Graph<M>,
        k: usize,
        values: Items,
    ) -> Result<(), Refusal>
        requires can { CanRunJoin self.old k values }
        requires store { CanStoreJoinOf graph.old self.old k values }
        ensures ok { OnOk result (self.new ≡ carried_out self.old k (begin_at self.old k)) }
        ensures stored { OnOk result (IsJoinStored graph.old self.old k values graph.new) }
        ensures told { graph.new.told ≡ graph.old.told }
        ensures err { OnErr result (self.new ≡ self.old) }
        ensures refused { IfErr result (IsRefusedFor (λ v. v ≡ carried_out self.old k (begin_at self.old k))) }
    {
        let record = &self.tasks[k].record;
        let body = run_body(
            self.alloc,
            &self.script,
            record.app(),
            values,
            record.path(),
        );
        let JoinBody { calls, ended } = match body {
            Ok(body) => body,
            Err(BodyFault::TooMany) => return Err(Refusal::TaskLimit),
            Err(BodyFault::NoMemory) => return Err(Refusal::NoMemory),
        };
        if calls.len() > MAX_TASKS - self.tasks.len() {
            return Err(Refusal::TaskLimit);
        }
        let units = all_units(calls.as_slice());
        if units > MAX_STORED - self.stored {
            return Err(Refusal::StoreLimit);
        }
        store_join(
            self.alloc,
            graph,
            self.tasks[k].record.path(),
            calls.as_slice(),
            &ended,
        )?;
        self.submit_calls(k, ended, calls, units)?;
        Ok(())
    }

    // The join's body ended so, and its calls are submitted, with so many units.
    fn submit_calls(
        &mut self,
        k: usize,
        ended: Ended,
        calls: Calls,
        units: u64,
    ) -> Result<(), AllocError>
        requires { AddsCalls self.old k ended calls.items units }
        ensures ok { OnOk result (self.new ≡ joined self.old k (result_of ended, calls_of calls.items)) }
        ensures err { OnErr result (self.new ≡ self.old) }
    {
        let mut tasks = tasks_of(self.alloc, calls)?;
        let mut entries = join_entries(
            self.alloc,
            self.tasks[k].record.path(),
            self.script.script().apps(),
            tasks.as_slice(),
        )?;
        self.tasks.reserve(tasks.len())?;
        self.log.reserve(self.running + entries.len())?;
        add_paths(
            self.alloc,
            &mut self.places,
            self.tasks.len(),
            tasks.as_slice(),
        )?;
        self.tasks[k].record.joining();
        self.tasks[k].ran = Some(ended);
        append_reserved(&mut self.tasks, &mut tasks);
        append_reserved(&mut self.log, &mut entries);
        self.stored += units;
        Ok(())
    }

    /// A join whose body ran settles, as all has settled that it returned.
    pub fn end_join<M: Monitor>(&mut self, graph: &mut Graph<M>, k: usize) -> Result<(), Refusal>
        requires over { IsOver self.old k }
        requires opened { IsOpenTask graph.old (path_at self.old k) }
        ensures ok { OnOk result (JoinEnds self.old k self.new) }
        ensures settled { OnOk result ((done : IsJoinDone self.old k) → graph.new ≡ with_settlement (settlement_of self.old k (sequential.join_outcome (known self.old) done.result)) graph.old) }
        ensures err { OnErr result (self.new ≡ self.old) }
        ensures told { IfErr result (λ refusal. (done : IsJoinDone self.old k) → MayTell (settlement_of self.old k (sequential.join_outcome (known self.old) done.result)) graph.old graph.new refusal) }
        ensures refused { IfErr result (IsRefusedFor (JoinEnds self.old k)) }
    {
        let Some(ended) = &self.tasks[k].ran else {
            unreachable!();
        };
        let outcome = join_outcome(self.alloc, &self.settled(), ended)?;
        let status = status_of(&outcome);
        let units = outcome_units(&outcome);
        if units > MAX_STORED - self.stored {
            return Err(Refusal::StoreLimit);
        }
        let path = self.tasks[k].record.path().copy(self.alloc)?;
        self.log.reserve(self.running + 1)?;
        let settlement = Settlement {
            path,
            status,
            outcome,
        };
        graph.settled(&settlement)?;
        let Settlement { path, outcome, .. } = settlement;
        self.tasks[k].record.finish(status);
        self.tasks[k].end = Some(outcome);
        self.stored += units;
        self.log.push_reserved(Entry::Settled { path, status });
        Ok(())
    }
}

// The launches of these calls, and what ends the join of this path, whose body ended so.
fn store_join<M: Monitor>(
    alloc: Global,
    graph: &mut Graph<M>,
    path: &Path,
    calls: &[JoinCall],
    ended: &Ended,
) -> Result<(), AllocError>
    requires { CanStoreJoin graph.old path.now (result_of ended.now, calls_of calls.now) }
    ensures ok { OnOk result (graph.new ≡ with_join_run path.now (result_of ended.now, calls_of calls.now) graph.old) }
    ensures told { graph.new.told ≡ graph.old.told }
{
    add_calls(alloc, graph, calls)?;
    let awaited = awaited_of(alloc, ended)?;
    graph.wait_join(alloc, path, awaited.as_slice())
}

fn add_calls<M: Monitor>(
    alloc: Global,
    graph: &mut Graph<M>,
    calls: &[JoinCall],
) -> Result<(), AllocError>
    requires { CanAddAll graph.old (calls_of calls.now) }
    ensures ok { OnOk result (graph.new ≡ with_tasks (calls_of calls.now) graph.old) }
    ensures told { graph.new.told ≡ graph.old.told }
{
    for call in calls {
        add_call(alloc, graph, &call.path, call.arguments.as_slice())?;
    }
    Ok(())
}

// The units of these calls. A sum past 64 bits is 2^64 - 1.
fn all_units(calls: &[JoinCall]) -> u64
    ensures { result ≡ min (sum (map units_of_call (calls_of calls.now))) (2 ^ 64 - 1) }
{
    let mut sum: u64 = 0;
    for call in calls {
        sum = sum.saturating_add(call_units(call.arguments.as_slice(), call.names.as_slice()));
    }
    sum
}

// The tasks of these calls.
fn tasks_of(alloc: Global, calls: Calls) -> Result<Vec<Task>, AllocError>
    ensures { IfOk result (λ tasks. tasks.items ≡ new_tasks calls.items) }
{
    let mut tasks = Vec::new(alloc);
    for call in calls {
        let JoinCall {
            path,
            app,
            arguments,
            names,
        } = call;
        let mut record = TaskRecord::new(path, app, arguments, names);
        record.pending();
        tasks.push(Task {
            record,
            end: None,
            ran: None,
        })?;
    }
    Ok(tasks)
}

// That the body of the join of this path ran, and the submissions of these tasks.
fn join_entries(
    alloc: Global,
    path: &Path,
    apps: &[AppDef],
    tasks: &[Task],
) -> Result<Vec<Entry>, AllocError>
    ensures { IfOk result (λ entries. entries.items ≡ entry.JoinRun path.now ∷ submissions apps.now tasks.now) }
{
    let mut entries = Vec::new(alloc);
    entries.push(Entry::JoinRun {
        path: path.copy(alloc)?,
    })?;
    for task in tasks {
        entries.push(Entry::Submit {
            path: task.record.path().copy(alloc)?,
            app: app_name(alloc, apps, task.record.app())?,
        })?;
    }
    Ok(entries)
}

// Adds the paths of these tasks behind so many others, or none of them.
fn add_paths(
    alloc: Global,
    places: &mut PathTable,
    count: usize,
    tasks: &[Task],
) -> Result<(), AllocError>
    requires count { count ≡ length places.old }
    requires distinct { AreDistinct (places.old ++ task_paths tasks.now) }
    ensures ok { OnOk result (places.new ≡ places.old ++ task_paths tasks.now) }
    ensures err { OnErr result (places.new ≡ places.old) }
{
    for task in tasks {
        if places.add(alloc, task.record.path()).is_err() {
            places.truncate(count);
            return Err(AllocError);
        }
    }
    Ok(())
}

// Moves these to the end, where there is room for them.
fn append_reserved<T>(list: &mut Vec<T>, items: &mut Vec<T>)
    requires { vec_len list.old + vec_len items.old ≤ vec_capacity list.old }
    ensures items { list.new.items ≡ list.old.items ++ items.old.items }
    ensures len { vec_len list.new ≡ vec_len list.old + vec_len items.old }
    ensures capacity { vec_capacity list.old ≤ vec_capacity list.new }
{
    if list.append(items).is_err() {
        unreachable!();
    }
}
