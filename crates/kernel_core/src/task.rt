//! A task of a run.

ghost use Rattle.std.specs.Prelude.{◌≡◌};
ghost use Rattle.std.specs.Option.{option_copied};
ghost use Rattle.flow_base.specs.declared.outcome.Outcome.TheVariants as o;
ghost use Rattle.history_laws.specs.Tables.{status_of as state_of};
ghost use Rattle.kernel_model.specs.Known.{outcome_in};
ghost use Rattle.kernel_core.specs.Tasks.{life_of};

use flow_base::{Ended, Exception, Outcome};
use task_record::{Status, TaskRecord};

/// The record of a task, how its last attempt, or the task itself, ended, and how the body of a join ended.
#[derive(Drop)]
pub struct Task {
    pub record: TaskRecord,
    pub end: Option<Outcome>,
    pub ran: Option<Ended>,
}

impl Task {
    /// Its outcome, once it is settled.
    pub fn outcome(&self) -> Option<&Outcome>
        ensures { option_copied result ≡ outcome_in (life_of self.now) }
    {
        if self.record.status().is_settled() {
            self.end.as_ref()
        } else {
            None
        }
    }
}

/// The state in which a task with this outcome settles.
pub fn status_of(outcome: &Outcome) -> Status
    ensures { result ≡ state_of outcome.now }
{
    match outcome {
        Outcome::Value { .. } => Status::ExecDone,
        Outcome::Failed(exception) => status_of_exception(exception),
    }
}

fn status_of_exception(exception: &Exception) -> Status
    ensures { result ≡ state_of (o.Failed exception.now) }
{
    match exception {
        Exception::DependencyError(_) => Status::DepFail,
        _ => Status::Failed,
    }
}
