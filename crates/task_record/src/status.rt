//! The states of a task.

ghost use Rattle.std.specs.Prelude.{◌≡◌};
ghost use Rattle.task_record.specs.States.{status_name, is_settled};
ghost use Rattle.task_record.specs.Transitions.{may_become};

/// The state of a task.
#[derive(Clone, Copy, PartialEq, Eq, Debug)]
pub enum Status {
    /// Not submitted yet.
    Unsched,
    /// Submitted; no attempt of it is on its way.
    Pending,
    /// An attempt waits for a manager or a worker.
    Launched,
    /// An attempt runs.
    Running,
    /// An attempt has ended, and the task isn't settled.
    RunningEnded,
    /// The body of a join ran, and the futures that it returned are waited for.
    Joining,
    /// Settled with the value of an attempt or of a join.
    ExecDone,
    /// Settled with a memoised value.
    MemoDone,
    /// Settled with an exception.
    Failed,
    /// Settled as some of its inputs failed.
    DepFail,
    /// An attempt has failed, and a further one follows.
    FailRetryable,
}

impl Status {
    /// The word for it in the log.
    pub fn name(&self) -> &'static str
        ensures { result.now ≡ status_name self.now }
    {
        match self {
            Status::Unsched => "unsched",
            Status::Pending => "pending",
            Status::Launched => "launched",
            Status::Running => "running",
            Status::RunningEnded => "running_ended",
            Status::Joining => "joining",
            Status::ExecDone => "exec_done",
            Status::MemoDone => "memo_done",
            Status::Failed => "failed",
            Status::DepFail => "dep_fail",
            Status::FailRetryable => "fail_retryable",
        }
    }

    /// Whether a task in this state is settled.
    pub fn is_settled(self) -> bool
        ensures { result ≡ is_settled self }
    {
        matches!(
            self,
            Status::ExecDone | Status::MemoDone | Status::Failed | Status::DepFail
        )
    }

    /// Whether a task in this state may go to the next one.
    pub fn may_become(self, next: Status) -> bool
        ensures { result ≡ may_become self next }
    {
        match self {
            Status::Unsched => matches!(next, Status::Pending),
            Status::Pending => matches!(
                next,
                Status::Launched
                    | Status::Joining
                    | Status::MemoDone
                    | Status::DepFail
                    | Status::Failed
            ),
            Status::Launched => matches!(
                next,
                Status::Running | Status::FailRetryable | Status::Failed
            ),
            Status::Running => matches!(
                next,
                Status::RunningEnded | Status::FailRetryable | Status::Failed
            ),
            Status::RunningEnded => matches!(
                next,
                Status::FailRetryable | Status::ExecDone | Status::Failed
            ),
            Status::FailRetryable => matches!(next, Status::Pending),
            Status::Joining => matches!(next, Status::ExecDone | Status::Failed),
            Status::ExecDone | Status::MemoDone | Status::Failed | Status::DepFail => false,
        }
    }
}
