//! What a body knows of its calls.

ghost use Rattle.std.specs.Prelude.{◌≡◌};
ghost use Rattle.std.specs.Option.{option_copied};
ghost use Rattle.script_eval.specs.Answering.{outcome_from, outcome_in, settled_from};

use crate::state::{EvalState, EvalTask};
use dependency_graph::Outcomes;
use flow_base::{Outcome, Path};
use sqlite_items::at;

/// The tasks from a place on: those that a body made so far, and all below them.
#[derive(Drop)]
pub struct Group<'a> {
    pub state: &'a EvalState,
    pub first: usize,
}

impl Outcomes for Group<'_> {
    ghost tasks = { λ g. settled_from g.first g.state.now };

    fn outcome(&self, path: &Path) -> Option<&Outcome> {
        match self.state.places.place(path) {
            Some(place) => self.outcome_at(place),
            None => None,
        }
    }
}

impl Group<'_> {
    /// The outcome of the task at a place, where that is one from the first on.
    fn outcome_at(&self, place: usize) -> Option<&Outcome>
        ensures { option_copied result ≡ outcome_from self.now.first self.now.state.now.tasks.items place }
    {
        if place < self.first {
            return None;
        }
        task_outcome(at(self.state.tasks.as_slice(), place))
    }
}

fn task_outcome(task: Option<&EvalTask>) -> Option<&Outcome>
    ensures { option_copied result ≡ outcome_in (option_copied task.entry) }
{
    match task {
        Some(task) => task.outcome.as_ref(),
        None => None,
    }
}
