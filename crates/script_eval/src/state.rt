//! What an evaluation has made so far.

ghost use Rattle.std.specs.Prelude.{◌≡◌, ◌<◌, [], ◌∷◌, ◌++◌, None, Some, length, IfOk};
ghost use Rattle.flow_base.specs.Values.{units as units_of};
ghost use Rattle.dependency_graph.specs.Places.{place_in};
ghost use Rattle.stored_units.specs.Stored as stored;
ghost use Rattle.stored_units.specs.Totals.{Submits, Stores};
ghost use Rattle.script_eval.specs.Answering.{AreSettled, HaveEnds, IsEmpty, IsEvaluation, Opened, Prints, Settles, Takes, ending_from, with_units};

use crate::evaluation::EvalFault;
use dependency_graph::PathTable;
use flow_base::{
    Ended, Ending, Evaluation, Items, Names, Outcome, Path, TaskEnd, TaskEnds, Text, Value,
};
use std::alloc::{AllocError, Global};
use stored_units::{Limit, MAX_STORED, MAX_TASKS, call_units, outcome_units};

/// A task of an evaluation.
#[derive(Drop)]
pub struct EvalTask {
    pub path: Path,
    /// The name of its app.
    pub app: Text,
    /// None until all below it is evaluated.
    pub outcome: Option<Outcome>,
}

/// The tasks so far, in the order of their paths, the printed values, and the units that are stored.
#[derive(Drop)]
pub struct EvalState {
    pub tasks: Vec<EvalTask>,
    /// The paths of the tasks.
    pub places: PathTable,
    pub printed: Items,
    pub stored: u64,
}

/// A call that is submitted, whose task has no outcome yet.
#[derive(Drop)]
pub struct OpenCall {
    /// Its path.
    pub path: Path,
    /// The place of its task.
    pub place: usize,
    /// Its future.
    pub future: Value,
    /// How many calls its caller made with it.
    pub number: u32,
}

impl EvalState {
    /// Nothing is made yet.
    pub fn new(alloc: Global) -> EvalState
        ensures { IsEmpty result }
    {
        EvalState {
            tasks: Vec::new(alloc),
            places: PathTable::new(alloc),
            printed: Items::new(alloc),
            stored: 0,
        }
    }

    /// One more call is counted, with its units.
    pub fn submit(&mut self, arguments: &Items, names: &Names) -> Result<(), Limit>
        ensures { Takes (Submits (stored.call_units arguments.now names.now) ∷ []) self.old (with_units (stored.call_units arguments.now names.now) self.old) self.new result }
    {
        if self.tasks.len() >= MAX_TASKS {
            return Err(Limit::Tasks);
        }
        self.store(call_units(arguments.as_slice(), names.as_slice()))
    }

    /// So many units more are stored.
    fn store(&mut self, units: u64) -> Result<(), Limit>
        ensures { Takes (Stores units ∷ []) self.old (with_units units self.old) self.new result }
    {
        let total = self.stored.saturating_add(units);
        if total > MAX_STORED {
            return Err(Limit::Stored);
        }
        self.stored = total;
        Ok(())
    }

    fn store_outcome(&mut self, outcome: &Outcome) -> Result<(), Limit>
        ensures { Takes (Stores (stored.outcome_units outcome.now) ∷ []) self.old (with_units (stored.outcome_units outcome.now) self.old) self.new result }
    {
        self.store(outcome_units(outcome))
    }

    fn store_value(&mut self, value: &Value) -> Result<(), Limit>
        ensures { Takes (Stores (units_of value.now) ∷ []) self.old (with_units (units_of value.now) self.old) self.new result }
    {
        self.store(value.size())
    }

    /// A task more, without an outcome. It gives its place.
    pub fn open(&mut self, alloc: Global, path: Path, app: Text) -> Result<usize, AllocError>
        requires { place_in self.old.places path ≡ None }
        ensures { IfOk result (λ place. (place ≡ length self.old.tasks.items) × Opened path app self.old self.new) }
    {
        let place = self.tasks.len();
        self.tasks.reserve(1)?;
        self.places.add(alloc, &path)?;
        self.tasks.push_reserved(EvalTask {
            path,
            app,
            outcome: None,
        });
        Ok(place)
    }

    /// The task at this place gets its outcome, which is stored.
    pub fn settle(&mut self, place: usize, outcome: Outcome) -> Result<(), Limit>
        requires { place < length self.old.tasks.items }
        ensures { Settles place outcome self.old self.new result }
    {
        self.store_outcome(&outcome)?;
        settle_task(&mut self.tasks[place], outcome);
        Ok(())
    }

    /// One more value is printed.
    pub fn print(&mut self, value: Value) -> Result<(), EvalFault>
        ensures { Prints value self.old self.new result }
    {
        self.store_value(&value)?;
        self.printed.push(value)?;
        Ok(())
    }

    /// The evaluation, once main has ended so and each task has its outcome.
    pub fn evaluation(self, alloc: Global, ended: Ended) -> Result<Evaluation, AllocError>
        requires { AreSettled self.tasks.items }
        ensures { IfOk result (λ evaluation. IsEvaluation self ended evaluation) }
    {
        Ok(Evaluation {
            tasks: ends_of(alloc, self.tasks)?,
            printed: self.printed,
            main: ending_of(ended),
        })
    }
}

/// The ends of settled tasks.
fn ends_of(alloc: Global, tasks: Vec<EvalTask>) -> Result<TaskEnds, AllocError>
    requires { AreSettled tasks.items }
    ensures { IfOk result (λ ends. HaveEnds tasks.items ends) }
{
    let mut ends = TaskEnds::new(alloc);
    for task in tasks {
        let EvalTask { path, app, outcome } = task;
        match outcome {
            Some(outcome) => ends.push(TaskEnd { path, app, outcome })?,
            None => unreachable!(),
        }
    }
    Ok(ends)
}

/// How main ends.
fn ending_of(ended: Ended) -> Ending
    ensures { result ≡ ending_from ended }
{
    match ended {
        Ended::Value { .. } => Ending::Ended,
        Ended::Raised(exception) => Ending::Raised(exception),
    }
}

fn settle_task(task: &mut EvalTask, outcome: Outcome)
    ensures { task.new ≡ record task.old { outcome = Some outcome } }
{
    task.outcome = Some(outcome);
}
