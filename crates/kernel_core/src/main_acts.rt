//! The acts of main: each adds what main did, or changes nothing.

ghost use Rattle.std.specs.Prelude.{◌≡◌, ◌+◌, ◌<◌, ◌^◌, [], ◌∷◌, length, not, IfOk, OnOk, OnErr, IfErr, slice_get};
ghost use Rattle.flow_base.specs.declared.value.Value.{out-Value};
ghost use Rattle.flow_meaning.specs.declared.walk.Request.TheVariants as request;
ghost use Rattle.flow_meaning.specs.Evaluations.{name_in};
ghost use Rattle.flow_meaning.specs.Inputs.{inputs};
ghost use Rattle.dependency_graph.specs.Graphs.{CanAdd, with_task};
ghost use Rattle.kernel_model.specs.Known.{next_path, path_at};
ghost use Rattle.kernel_model.specs.Acts.{call_of, called, printed, checkpointed, arrived_at, main_ended, future_of};
ghost use Rattle.kernel_model.specs.Conditions.{MainAsks, CanEndMain};
ghost use Rattle.kernel_model.specs.Limits.{IsRefusedFor};
ghost use Rattle.kernel_core.specs.MainTurns.{AddsCall, CanWait, CanArrive, IsWaited};

use crate::run_state::{MainStep, RunState};
use crate::task::Task;
use dependency_graph::{Graph, Monitor, inputs_of};
use event_log::Entry;
use flow_base::{Ending, Items, Names, Path, Text, Value};
use kernel_model::Refusal;
use script_tree::tree::AppDef;
use std::alloc::{AllocError, Global};
use stored_units::{MAX_STORED, MAX_TASKS, call_units};
use task_record::TaskRecord;

impl RunState {
    /// A place for one more step of main. What is known stays as it is.
    pub fn reserve_step(&mut self) -> Result<(), AllocError>
        ensures same { self.new ≡ self.old }
        ensures room { OnOk result (length self.new.answers + 1 < 2 ^ 64) }
    {
        self.steps.reserve(1)
    }

    /// Main makes a call. It gets the future of it, and the graph its launch.
    pub fn call<M: Monitor>(
        &mut self,
        graph: &mut Graph<M>,
        app: u32,
        arguments: Items,
        names: Names,
    ) -> Result<Value, Refusal>
        requires asks { MainAsks self.old (request.Call app arguments names) }
        requires add { CanAdd graph.old (next_path self.old) (inputs arguments) }
        ensures ok { OnOk result (self.new ≡ called self.old (call_of self.old app arguments names)) }
        ensures future { IfOk result (λ future. future ≡ future_of (call_of self.old app arguments names)) }
        ensures added { OnOk result (graph.new ≡ with_task (next_path self.old) (inputs arguments) graph.old) }
        ensures told { graph.new.told ≡ graph.old.told }
        ensures err { OnErr result (self.new ≡ self.old) }
        ensures refused { IfErr result (IsRefusedFor (λ v. v ≡ called self.old (call_of self.old app arguments names))) }
    {
        if self.tasks.len() >= MAX_TASKS {
            return Err(Refusal::TaskLimit);
        }
        let units = call_units(arguments.as_slice(), names.as_slice());
        if units > MAX_STORED - self.stored {
            return Err(Refusal::StoreLimit);
        }
        let path = Path::new(self.alloc).child(self.alloc, self.mains + 1)?;
        let future = Value::Future {
            path: path.copy(self.alloc)?,
            outputs: names.len() as u32,
        };
        add_call(self.alloc, graph, &path, arguments.as_slice())?;
        self.submit(path, app, arguments, names, units)?;
        Ok(future)
    }

    // The call of this path is submitted.
    fn submit(
        &mut self,
        path: Path,
        app: u32,
        arguments: Items,
        names: Names,
        units: u64,
    ) -> Result<(), AllocError>
        requires asks { MainAsks self.old (request.Call app arguments names) }
        requires adds { AddsCall self.old (call_of self.old app arguments names) path units }
        ensures ok { OnOk result (self.new ≡ called self.old (call_of self.old app arguments names)) }
        ensures err { OnErr result (self.new ≡ self.old) }
    {
        let k = self.tasks.len();
        let submitted = path.copy(self.alloc)?;
        let name = app_name(self.alloc, self.script.script().apps(), app)?;
        self.tasks.reserve(1)?;
        self.steps.reserve(1)?;
        self.log.reserve(self.running + 1)?;
        self.places.add(self.alloc, &path)?;
        let mut record = TaskRecord::new(path, app, arguments, names);
        record.pending();
        self.tasks.push_reserved(Task {
            record,
            end: None,
            ran: None,
        });
        self.mains += 1;
        self.steps.push_reserved(MainStep::Call(k));
        self.stored += units;
        self.arrived = false;
        self.log.push_reserved(Entry::Submit {
            path: submitted,
            app: name,
        });
        Ok(())
    }

    /// Main prints this value.
    pub fn print(&mut self, value: Value) -> Result<(), Refusal>
        requires { MainAsks self.old (request.Print value) }
        ensures ok { OnOk result (self.new ≡ printed self.old value) }
        ensures err { OnErr result (self.new ≡ self.old) }
        ensures refused { IfErr result (IsRefusedFor (λ v. v ≡ printed self.old value)) }
    {
        let units = value.size();
        if units > MAX_STORED - self.stored {
            return Err(Refusal::StoreLimit);
        }
        self.steps.reserve(1)?;
        self.steps.push_reserved(MainStep::Print(value));
        self.stored += units;
        self.arrived = false;
        Ok(())
    }

    /// Main goes on behind a checkpoint.
    pub fn checkpoint(&mut self) -> Result<(), AllocError>
        requires { MainAsks self.old request.Checkpoint }
        ensures ok { OnOk result (self.new ≡ checkpointed self.old) }
        ensures err { OnErr result (self.new ≡ self.old) }
    {
        self.steps.reserve(1)?;
        self.steps.push_reserved(MainStep::Checkpoint);
        self.arrived = false;
        Ok(())
    }

    /// Main goes on behind its wait for this call, which is settled.
    pub fn wait(&mut self, k: usize) -> Result<(), AllocError>
        requires { CanWait self.old k }
        ensures ok { OnOk result (IsWaited self.old k self.new) }
        ensures err { OnErr result (self.new ≡ self.old) }
    {
        self.steps.reserve(1)?;
        self.steps.push_reserved(MainStep::Wait(k));
        self.arrived = false;
        Ok(())
    }

    /// Main comes to its wait for a call that isn't settled. False where an earlier turn came to it.
    pub fn arrive(&mut self) -> bool
        requires { CanArrive self.old }
        ensures first { result ≡ not self.old.arrived }
        ensures after { self.new ≡ arrived_at self.old }
    {
        let first = !self.arrived;
        self.arrived = true;
        first
    }

    /// Main ends so.
    pub fn end_main(&mut self, ending: Ending)
        requires { CanEndMain self.old ending }
        ensures { self.new ≡ main_ended self.old ending }
    {
        self.ending = Some(ending);
    }
}

/// Adds the task of a call to the graph, with its launch.
pub fn add_call<M: Monitor>(
    alloc: Global,
    graph: &mut Graph<M>,
    path: &Path,
    arguments: &[Value],
) -> Result<(), AllocError>
    requires { CanAdd graph.old path.now (inputs arguments.now) }
    ensures ok { OnOk result (graph.new ≡ with_task path.now (inputs arguments.now) graph.old) }
    ensures err { OnErr result (graph.new ≡ graph.old) }
{
    let inputs = inputs_of(alloc, arguments)?;
    graph.add(alloc, path, inputs.as_slice())
}

/// The name of the app of this number, or the empty text where there is none.
pub fn app_name(alloc: Global, apps: &[AppDef], app: u32) -> Result<Text, AllocError>
    ensures { IfOk result (λ name. name ≡ name_in (slice_get apps.now app)) }
{
    match apps.get(app as usize) {
        Some(app) => app.name.copy(alloc),
        None => Ok(Text::new(alloc)),
    }
}
