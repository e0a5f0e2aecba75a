//! What a run reads of its tasks for their callbacks and attempts.

ghost use Rattle.std.specs.Prelude.{◌≡◌, ◌↔◌, ◌<◌, length, IsTrue, IfOk, MatchOption};
ghost use Rattle.task_record.specs.declared.status.Status.TheVariants as status;
ghost use Rattle.kernel_model.specs.Known.{path_at, status_at};
ghost use Rattle.kernel_model.specs.Turns.{IsCallback, IsRunning, job_of};
ghost use Rattle.kernel_core.specs.Turned.{NoJob, BeginsWith};

use crate::beginning::Beginning;
use crate::job::Job;
use crate::run_state::RunState;
use dependency_graph::{is_resolved, readiness_of, resolve};
use flow_base::{MAX_PATH, copy_names, same_names};
use std::alloc::AllocError;
use task_record::Status;

impl RunState {
    /// How a task begins whose inputs are all settled.
    pub fn beginning(&self, k: usize) -> Result<Beginning, AllocError>
        requires { IsCallback self.now k }
        ensures { IfOk result (BeginsWith self.now k) }
    {
        let record = &self.tasks[k].record;
        let arguments = record.arguments().as_slice();
        let readiness = readiness_of(self.alloc, &self.settled(), arguments)?;
        let app = self.script.script().apps().get(record.app() as usize);
        let room = record.path().len() < MAX_PATH;
        Ok(Beginning::of(app, room, readiness))
    }

    /// The job of a launched attempt.
    pub fn job(&self, k: usize) -> Result<Job, AllocError>
        requires { status_at self.now k ≡ status.Launched }
        ensures { IfOk result (λ job. job ≡ job_of self.now k) }
    {
        let alloc = self.alloc;
        let record = &self.tasks[k].record;
        Ok(Job {
            path: record.path().copy(alloc)?,
            attempt: record.attempts(),
            manager: 1,
            app: record.app(),
            arguments: resolve(alloc, &self.settled(), record.arguments().as_slice())?,
            names: copy_names(alloc, record.names().as_slice())?,
        })
    }

    /// The task whose running attempt has this job.
    pub fn running_as(&self, job: &Job) -> Option<usize>
        ensures { MatchOption result (NoJob self.now job.now) (IsRunning self.now job.now) }
    {
        self.facts();
        let k = self.place(&job.path)?;
        if self.is_job(k, job) { Some(k) } else { None }
    }

    fn is_job(&self, k: usize, job: &Job) -> bool
        requires within { k < length self.now.calls }
        requires path { job.now.path ≡ path_at self.now k }
        ensures { IsTrue result ↔ IsRunning self.now job.now k }
    {
        let record = &self.tasks[k].record;
        record.status() == Status::Running
            && record.attempts() == job.attempt
            && job.manager == 1
            && record.app() == job.app
            && same_names(record.names().as_slice(), job.names.as_slice())
            && is_resolved(
                &self.settled(),
                record.arguments().as_slice(),
                job.arguments.as_slice(),
            )
    }
}
