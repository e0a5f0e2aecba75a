//! The acts on tasks: each changes a record and adds its entry, or changes nothing.

ghost use Rattle.std.specs.Prelude.{◌≡◌, Some, IsSome, OnOk, OnErr, IfOk, IfErr};
ghost use Rattle.flow_base.specs.declared.outcome.Outcome.{Outcome as OutcomeOf};
ghost use Rattle.flow_base.specs.declared.outcome.Outcome.TheVariants as o;
ghost use Rattle.kernel_model.specs.Known.{path_at, life_at, word_of};
ghost use Rattle.dependency_graph.specs.Graphs.{IsOpenTask, with_settlement};
ghost use Rattle.dependency_graph.specs.Monitors.{ToldFirst};
ghost use Rattle.kernel_model.specs.declared.answers.Refusal.TheVariants.{NoMemory};
ghost use Rattle.kernel_model.specs.Acts.{launched, started, finished, settled_as, settlement_of, over};
ghost use Rattle.kernel_model.specs.Conditions.{CanLaunch, CanStart, CanFinish, CanFail, CanEnd};
ghost use Rattle.kernel_model.specs.Limits.{IsRefusedFor};
ghost use Rattle.kernel_model.specs.Turns.{Settles};
ghost use Rattle.kernel_core.specs.Memo.{IsKeptTask};
ghost use Rattle.kernel_core.specs.Settlements.{MayTell};
ghost use Rattle.kernel_core.specs.Turned.{AttemptIsOver};

use crate::run_state::RunState;
use crate::task::status_of;
use dependency_graph::{Graph, Monitor, Settlement};
use event_log::Entry;
use flow_base::{Exception, Outcome, Path, Text};
use kernel_model::Refusal;
use std::alloc::AllocError;
use stored_units::{MAX_STORED, outcome_units};
use task_record::Status;

impl RunState {
    /// An attempt of the task is launched.
    pub fn launch(&mut self, k: usize) -> Result<(), AllocError>
        requires { CanLaunch self.old k }
        ensures ok { OnOk result (self.new ≡ launched self.old k) }
        ensures err { OnErr result (self.new ≡ self.old) }
    {
        let path = self.tasks[k].record.path().copy(self.alloc)?;
        self.log.reserve(self.running + 1)?;
        self.tasks[k].record.launched();
        let attempt = self.tasks[k].record.attempts();
        self.log.push_reserved(Entry::Launch { path, attempt });
        Ok(())
    }

    /// The task's last attempt is started. A place for the entry of its end is kept.
    pub fn start(&mut self, k: usize) -> Result<(), AllocError>
        requires { CanStart self.old k }
        ensures ok { OnOk result (self.new ≡ started self.old k) }
        ensures err { OnErr result (self.new ≡ self.old) }
    {
        let path = self.tasks[k].record.path().copy(self.alloc)?;
        self.log.reserve(self.running + 2)?;
        let attempt = self.tasks[k].record.attempts();
        self.tasks[k].record.running();
        self.running += 1;
        self.log.push_reserved(Entry::Start {
            path,
            attempt,
            manager: 1,
        });
        Ok(())
    }

    /// The task's last attempt ends.
    pub fn finish(&mut self, k: usize, path: Path, word: Text, outcome: Outcome)
        requires can { CanFinish self.old k outcome }
        requires path { path ≡ path_at self.old k }
        requires word { word ≡ word_of outcome }
        ensures { self.new ≡ finished self.old k outcome }
    {
        let attempt = self.tasks[k].record.attempts();
        self.tasks[k].record.running_ended();
        self.tasks[k].end = Some(outcome);
        self.running -= 1;
        self.log.push_reserved(Entry::Ended {
            path,
            attempt,
            manager: 1,
            ended: word,
        });
    }

    /// One of the first three rules settles the task, or its app is missing, or its path is too long.
    pub fn fail<M: Monitor>(
        &mut self,
        graph: &mut Graph<M>,
        k: usize,
        exception: Exception,
    ) -> Result<(), AllocError>
        requires can { CanFail self.old k exception }
        requires opened { IsOpenTask graph.old (path_at self.old k) }
        ensures ok { OnOk result (self.new ≡ settled_as self.old k (o.Failed exception)) }
        ensures settled { OnOk result (graph.new ≡ with_settlement (settlement_of self.old k (o.Failed exception)) graph.old) }
        ensures err { OnErr result (self.new ≡ self.old) }
        ensures told { OnErr result (MayTell (settlement_of self.old k (o.Failed exception)) graph.old graph.new NoMemory) }
    {
        let path = self.tasks[k].record.path().copy(self.alloc)?;
        self.log.reserve(self.running + 1)?;
        let outcome = Outcome::Failed(exception);
        let status = status_of(&outcome);
        let settlement = Settlement {
            path,
            status,
            outcome,
        };
        graph.settled(&settlement)?;
        let Settlement { path, outcome, .. } = settlement;
        self.tasks[k].record.finish(status);
        self.tasks[k].end = Some(outcome);
        self.log.push_reserved(Entry::Settled { path, status });
        Ok(())
    }

    /// The end of its attempt settles the task.
    pub fn settle<M: Monitor>(&mut self, graph: &mut Graph<M>, k: usize) -> Result<(), Refusal>
        requires over { AttemptIsOver self.old k }
        requires kept { IsKeptTask self.old k }
        requires opened { IsOpenTask graph.old (path_at self.old k) }
        ensures ok { OnOk result ((outcome : OutcomeOf) → (life_at self.old k).end ≡ Some outcome → self.new ≡ settled_as self.old k outcome) }
        ensures settled { OnOk result ((outcome : OutcomeOf) → (life_at self.old k).end ≡ Some outcome → graph.new ≡ with_settlement (settlement_of self.old k outcome) graph.old) }
        ensures err { OnErr result (self.new ≡ self.old) }
        ensures told { IfErr result (λ refusal. (outcome : OutcomeOf) → (life_at self.old k).end ≡ Some outcome → MayTell (settlement_of self.old k outcome) graph.old graph.new refusal) }
        ensures refused { IfErr result (IsRefusedFor (Settles self.old)) }
    {
        let Some(outcome) = &self.tasks[k].end else {
            unreachable!();
        };
        let status = status_of(outcome);
        let units = outcome_units(outcome);
        if units > MAX_STORED - self.stored {
            return Err(Refusal::StoreLimit);
        }
        let path = self.tasks[k].record.path().copy(self.alloc)?;
        self.log.reserve(self.running + 1)?;
        let path = tell_end(graph, &mut self.tasks[k].end, path, status)?;
        self.tasks[k].record.finish(status);
        self.stored += units;
        self.log.push_reserved(Entry::Settled { path, status });
        Ok(())
    }

    /// The end.
    pub fn end(&mut self) -> Result<(), AllocError>
        requires { CanEnd self.old }
        ensures ok { OnOk result (self.new ≡ over self.old) }
        ensures err { OnErr result (self.new ≡ self.old) }
    {
        self.log.reserve(self.running + 1)?;
        self.log.push_reserved(Entry::End);
        Ok(())
    }
}

// Tells the graph that a task settles in this state by this end of its attempt. Gives the path back.
fn tell_end<M: Monitor>(
    graph: &mut Graph<M>,
    end: &mut Option<Outcome>,
    path: Path,
    status: Status,
) -> Result<Path, AllocError>
    requires opened { IsOpenTask graph.old path }
    requires ended { IsSome end.old }
    ensures same { end.new ≡ end.old }
    ensures path { IfOk result (λ given. given ≡ path) }
    ensures settled { OnOk result ((outcome : OutcomeOf) → end.old ≡ Some outcome → graph.new ≡ with_settlement (record { path = path; status = status; outcome = outcome }) graph.old) }
    ensures told { OnErr result ((outcome : OutcomeOf) → end.old ≡ Some outcome → ToldFirst (record { path = path; status = status; outcome = outcome }) graph.old.told graph.new.told) }
{
    let Some(outcome) = end.take() else {
        unreachable!();
    };
    let settlement = Settlement {
        path,
        status,
        outcome,
    };
    let told = graph.settled(&settlement);
    let Settlement { path, outcome, .. } = settlement;
    *end = Some(outcome);
    told?;
    Ok(path)
}
