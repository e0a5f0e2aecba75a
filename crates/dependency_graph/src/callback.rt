//! Callbacks, and the states of futures.

ghost use Rattle.std.specs.Prelude.{◌≡◌};
ghost use Rattle.dependency_graph.specs.declared.callback.CallbackKind.TheVariants as kind;
ghost use Rattle.dependency_graph.specs.OutcomeStates.{state_of as definition};

use flow_base::Outcome;
use std::marker::Model;

/// The state of a task's future: open, or settled with a value or without.
#[derive(Clone, Copy, PartialEq, Eq)]
pub enum FutureState {
    Open,
    Value,
    Failed,
}

/// What a callback does once all futures that it waits for are settled.
#[derive(Clone, Copy, PartialEq, Eq)]
pub enum CallbackKind {
    /// It begins its task.
    Launch,
    /// It ends the join of its task.
    Join,
}

/// What is to be done, and for which task: tasks have their numbers from 0, in the order in which they were added.
#[derive(Clone, Copy, Debug, PartialEq, Eq)]
pub enum Callback {
    /// All inputs of the task settled with values.
    Launch(usize),
    /// All inputs of the task settled, and at least one failed.
    DepFail(usize),
    /// All settled that the body of the task's join returned.
    JoinDone(usize),
}

/// A callback as it is stored: what it does, for which task, and the tasks that it waits for.
#[derive(Drop)]
pub struct StoredCallback {
    pub kind: CallbackKind,
    pub task: usize,
    pub inputs: Vec<usize>,
}

impl Model for StoredCallback {
    ghost use Rattle.dependency_graph.specs.CallbackViews.{CallbackView};

    ghost Value = { CallbackView };

    ghost view = { λ c. record { kind = c.kind; task = c.task; inputs = c.inputs.items } };
}

impl StoredCallback {
    /// The launch of a task.
    pub fn launch(task: usize, inputs: Vec<usize>) -> StoredCallback
        ensures { result ≡ record { kind = kind.Launch; task = task; inputs = inputs.items } }
    {
        StoredCallback {
            kind: CallbackKind::Launch,
            task,
            inputs,
        }
    }

    /// The end of a task's join.
    pub fn join(task: usize, returned: Vec<usize>) -> StoredCallback
        ensures { result ≡ record { kind = kind.Join; task = task; inputs = returned.items } }
    {
        StoredCallback {
            kind: CallbackKind::Join,
            task,
            inputs: returned,
        }
    }
}

/// The state of a future that settled so.
pub fn state_of(outcome: &Outcome) -> FutureState
    ensures { result ≡ definition outcome.now }
{
    match outcome {
        Outcome::Value { .. } => FutureState::Value,
        Outcome::Failed(_) => FutureState::Failed,
    }
}
