//! What a kernel gives back at the end of a run.

ghost use Rattle.std.specs.Prelude.{◌≡◌, map, IfOk};
ghost use Rattle.history_laws.specs.Reads.{history_of};
ghost use Rattle.kernel_model.specs.Evaluated.{evaluated, ending_or as the_ending};
ghost use Rattle.dependency_graph.specs.Places.{AreDistinct};
ghost use Rattle.kernel_core.specs.Joins.{task_paths};
ghost use Rattle.kernel_core.specs.Parts.{parts_of, end_of as the_end, ends_in, ends_paths, ordered, printed_in};

use crate::kernel::Kernel;
use crate::main_acts::app_name;
use crate::run_state::{MainStep, RunState};
use crate::task::Task;
use dependency_graph::Monitor;
use event_log::Entries;
use flow_base::{Ending, Evaluation, Items, TaskEnd, TaskEnds};
use script_tree::tree::AppDef;
use std::alloc::{AllocError, Global};

impl<M: Monitor> Kernel<M> {
    /// The evaluation, the entries and the monitors. The evaluation is the sequential one where the end
    /// stands.
    pub fn into_parts(self) -> (Result<Evaluation, AllocError>, Entries, Vec<M>)
        ensures evaluation { IfOk result.0 (λ evaluation. evaluation ≡ evaluated self) }
        ensures log { history_of result.1 ≡ self.past }
        ensures monitors { map M.told result.2.items ≡ self.told }
    {
        let Kernel { state, agenda, .. } = self;
        let (evaluation, entries) = state.into_parts();
        (evaluation, entries, agenda.into_monitors())
    }
}

impl RunState {
    fn into_parts(self) -> (Result<Evaluation, AllocError>, Entries)
        ensures evaluation { IfOk result.0 (λ evaluation. evaluation ≡ evaluated self) }
        ensures log { history_of result.1 ≡ self.past }
    {
        let RunState {
            alloc,
            script,
            tasks,
            steps,
            ending,
            log,
            ..
        } = self;
        let evaluation = evaluation_of(alloc, script.script().apps(), tasks, steps, ending);
        (evaluation, Entries::from_vec(log))
    }
}

// The tasks have distinct paths.
fn evaluation_of(
    alloc: Global,
    apps: &[AppDef],
    tasks: Vec<Task>,
    steps: Vec<MainStep>,
    ending: Option<Ending>,
) -> Result<Evaluation, AllocError>
    requires { AreDistinct (task_paths tasks.items) }
    ensures { IfOk result (λ evaluation. evaluation ≡ parts_of apps.now tasks.items steps.items ending) }
{
    Ok(Evaluation {
        printed: printed_values(alloc, steps)?,
        tasks: task_ends(alloc, apps, tasks)?,
        main: ending_or(ending),
    })
}

fn printed_values(alloc: Global, steps: Vec<MainStep>) -> Result<Items, AllocError>
    ensures { IfOk result (λ values. values ≡ printed_in steps.items) }
{
    let mut values = Items::new(alloc);
    for step in steps {
        if let MainStep::Print(value) = step {
            values.push(value)?;
        }
    }
    Ok(values)
}

// The settled tasks in the order of their paths.
fn task_ends(alloc: Global, apps: &[AppDef], tasks: Vec<Task>) -> Result<TaskEnds, AllocError>
    requires { AreDistinct (task_paths tasks.items) }
    ensures { IfOk result (λ ends. ends ≡ ordered (ends_in apps.now tasks.items)) }
{
    let ends = settled_ends(alloc, apps, tasks)?;
    Ok(TaskEnds::from_vec(sorted_by_path(ends)))
}

fn settled_ends(
    alloc: Global,
    apps: &[AppDef],
    tasks: Vec<Task>,
) -> Result<Vec<TaskEnd>, AllocError>
    ensures { IfOk result (λ ends. ends.items ≡ ends_in apps.now tasks.items) }
{
    let mut ends = Vec::new(alloc);
    for task in tasks {
        if let Some(end) = end_of(alloc, apps, task)? {
            ends.push(end)?;
        }
    }
    Ok(ends)
}

fn sorted_by_path(mut ends: Vec<TaskEnd>) -> Vec<TaskEnd>
    requires { AreDistinct (ends_paths ends.items) }
    ensures { result.items ≡ ordered ends.items }
{
    ends.sort_unstable_by(|one, other| one.path.as_slice().cmp(other.path.as_slice()));
    ends
}

/// The task with its outcome, if it is settled.
fn end_of(alloc: Global, apps: &[AppDef], task: Task) -> Result<Option<TaskEnd>, AllocError>
    ensures { IfOk result (λ end. end ≡ the_end apps.now task) }
{
    let Task { record, end, .. } = task;
    if !record.status().is_settled() {
        return Ok(None);
    }
    let Some(outcome) = end else {
        return Ok(None);
    };
    Ok(Some(TaskEnd {
        path: record.path().copy(alloc)?,
        app: app_name(alloc, apps, record.app())?,
        outcome,
    }))
}

fn ending_or(ending: Option<Ending>) -> Ending
    ensures { result ≡ the_ending ending }
{
    ending.unwrap_or(Ending::Ended)
}
