//! The records of tasks.

ghost use Rattle.std.specs.Prelude.{◌≡◌, ◌+◌, ◌^◌, ◌<◌, IsTrue};
ghost use Rattle.task_record.specs.States.{is_settled};
ghost use Rattle.task_record.specs.Transitions.{may_become};

use crate::status::Status;
use flow_base::{Items, Names, Path};
use std::marker::Model;

/// A task: its path, app, arguments and names of outputs, its state, how many attempts were
/// launched, and the sum of what the failed ones cost.
#[derive(Drop)]
pub struct TaskRecord {
    path: Path,
    app: u32,
    arguments: Items,
    names: Names,
    status: Status,
    attempts: u32,
    cost: u64,
}

impl Model for TaskRecord {
    ghost use Rattle.flow_base.specs.contracts.value.Value as value;
    ghost use Rattle.std.specs.Coded.{codes};
    ghost use Rattle.task_record.specs.Tasks.{Task};

    ghost Value = { Task };

    ghost coded = { Prim.hlevel (codes, value.the_row.coded) };

    ghost view = { λ t. record {
      path = t.path;
      app = t.app;
      arguments = t.arguments;
      names = t.names;
      status = t.status;
      attempts = t.attempts;
      cost = t.cost;
    } };
}

impl TaskRecord {
    /// A task that isn't submitted yet, of an app by its number in the script.
    pub fn new(path: Path, app: u32, arguments: Items, names: Names) -> TaskRecord
        ensures { result ≡ record {
          path = path;
          app = app;
          arguments = arguments;
          names = names;
          status = Status.Unsched;
          attempts = 0;
          cost = 0;
        } }
    {
        TaskRecord {
            path,
            app,
            arguments,
            names,
            status: Status::Unsched,
            attempts: 0,
            cost: 0,
        }
    }

    /// It is submitted, or a further attempt of it is due.
    pub fn pending(&mut self)
        requires { IsTrue (may_become self.old.status Status.Pending) }
        ensures { self.new ≡ record self.old { status = Status.Pending } }
    {
        self.status = Status::Pending;
    }

    /// One more attempt of it is launched.
    pub fn launched(&mut self)
        requires transition { IsTrue (may_become self.old.status Status.Launched) }
        requires counted { self.old.attempts < 4294967295 }
        ensures { self.new ≡ record self.old { status = Status.Launched; attempts = self.old.attempts + 1 } }
    {
        self.status = Status::Launched;
        self.attempts += 1;
    }

    /// Its last attempt is started.
    pub fn running(&mut self)
        requires { IsTrue (may_become self.old.status Status.Running) }
        ensures { self.new ≡ record self.old { status = Status.Running } }
    {
        self.status = Status::Running;
    }

    /// Its last attempt has ended.
    pub fn running_ended(&mut self)
        requires { IsTrue (may_become self.old.status Status.RunningEnded) }
        ensures { self.new ≡ record self.old { status = Status.RunningEnded } }
    {
        self.status = Status::RunningEnded;
    }

    /// It is a join whose body ran.
    pub fn joining(&mut self)
        requires { IsTrue (may_become self.old.status Status.Joining) }
        ensures { self.new ≡ record self.old { status = Status.Joining } }
    {
        self.status = Status::Joining;
    }

    /// Its last attempt has failed at this cost, and a further one follows.
    pub fn retryable(&mut self, cost: u64)
        requires transition { IsTrue (may_become self.old.status Status.FailRetryable) }
        requires counted { self.old.cost + cost < 2 ^ 64 }
        ensures { self.new ≡ record self.old { status = Status.FailRetryable; cost = self.old.cost + cost } }
    {
        self.status = Status::FailRetryable;
        self.cost += cost;
    }

    /// It is settled in this state.
    pub fn finish(&mut self, status: Status)
        requires settled { IsTrue (is_settled status) }
        requires transition { IsTrue (may_become self.old.status status) }
        ensures { self.new ≡ record self.old { status = status } }
    {
        self.status = status;
    }

    /// Whether it may go to this state.
    pub fn may_become(&self, status: Status) -> bool
        ensures { result ≡ may_become self.now.status status }
    {
        self.status.may_become(status)
    }

    /// Its state.
    pub fn status(&self) -> Status
        ensures { result ≡ self.now.status }
    {
        self.status
    }

    /// How many attempts of it were launched.
    pub fn attempts(&self) -> u32
        ensures { result ≡ self.now.attempts }
    {
        self.attempts
    }

    /// The sum of what its failed attempts cost, in hundredths of a retry.
    pub fn cost(&self) -> u64
        ensures { result ≡ self.now.cost }
    {
        self.cost
    }

    /// Its path.
    pub fn path(&self) -> &Path
        ensures { result.now ≡ self.now.path }
    {
        &self.path
    }

    /// The number of its app in the script.
    pub fn app(&self) -> u32
        ensures { result ≡ self.now.app }
    {
        self.app
    }

    /// The arguments of its call.
    pub fn arguments(&self) -> &Items
        ensures { result.now ≡ self.now.arguments }
    {
        &self.arguments
    }

    /// The names of its output files.
    pub fn names(&self) -> &Names
        ensures { result.now ≡ self.now.names }
    {
        &self.names
    }
}
