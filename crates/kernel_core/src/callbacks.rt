//! Callbacks: what is carried out once all futures have settled that a task waits for.

ghost use Rattle.std.specs.Prelude.{◌≡◌, Some, None, false, IfOk, IfErr, OnOk, OnErr};
ghost use Rattle.flow_base.specs.declared.outcome.Outcome.TheVariants as o;
ghost use Rattle.flow_meaning.specs.declared.walk.Request.TheVariants as request;
ghost use Rattle.task_record.specs.declared.status.Status.TheVariants as status;
ghost use Rattle.kernel_model.specs.Acts.{call_of, called, future_of, hit, launched, settled_as, settled_in};
ghost use Rattle.kernel_model.specs.Conditions.{CanFail, CanLaunch, MainAsks};
ghost use Rattle.kernel_model.specs.Known.{begin_at, saved_at, has_ended};
ghost use Rattle.kernel_model.specs.Limits.{IsRefusedFor};
ghost use Rattle.kernel_model.specs.Turns.{CallbackTurn, CarriesOut, IsCallback, attempted, carried_out};
ghost use Rattle.agenda_model.specs.Agendas.{Serves, seen};
ghost use Rattle.kernel_core.specs.Joins.{CanRunJoin, IsOver, JoinEnds};
ghost use Rattle.kernel_core.specs.Memo.{MayAttempt, MayRecall};
ghost use Rattle.kernel_core.specs.Refused.{IsUndone};

use crate::agenda::Agenda;
use crate::beginning::Beginning;
use crate::run_state::RunState;
use dependency_graph::{Callback, Monitor};
use flow_base::{Exception, Items, Names, Outcome, Value};
use kernel_model::Refusal;

impl<M: Monitor> Agenda<M> {
    /// Carries out a callback: that of a task whose inputs are all settled, or of a join whose body ran and
    /// that waits for nothing any more. False exactly where none is ready.
    pub fn carry_out(&mut self, state: &mut RunState) -> Result<bool, Refusal>
        requires going { has_ended state.old ≡ false }
        requires serves { Serves self.old state.old None }
        ensures turn { IfOk result (λ did. CallbackTurn (seen self.old state.old) did (seen self.new state.new)) }
        ensures serves { OnOk result (Serves self.new state.new None) }
        ensures err { IfErr result (IsUndone (seen self.old state.old) (seen self.new state.new) (CarriesOut (seen self.old state.old))) }
    {
        state.facts();
        let Some(callback) = self.graph.next_callback() else {
            return Ok(false);
        };
        match callback {
            Callback::Launch(k) => self.begin(state, k)?,
            Callback::DepFail(k) => self.begin(state, k)?,
            Callback::JoinDone(k) => self.end_join(state, k)?,
        }
        Ok(true)
    }

    // A task whose inputs are all settled fails at once, is recalled or launched, or its body runs.
    fn begin(&mut self, state: &mut RunState, k: usize) -> Result<(), Refusal>
        requires going { has_ended state.old ≡ false }
        requires callback { IsCallback state.old k }
        requires serves { Serves self.old state.old (Some k) }
        ensures ok { OnOk result (seen self.new state.new ≡ carried_out (seen self.old state.old) k (begin_at state.old k)) }
        ensures serves { OnOk result (Serves self.new state.new None) }
        ensures err { IfErr result (IsUndone (seen self.old state.old) (seen self.new state.new) (λ v. v ≡ carried_out (seen self.old state.old) k (begin_at state.old k))) }
    {
        match state.beginning(k)? {
            Beginning::Fails(exception) => self.fail(state, k, exception),
            Beginning::Attempts(values) => self.attempt(state, k, values),
            Beginning::Joins(values) => self.run_join(state, k, values),
        }
    }

    fn fail(&mut self, state: &mut RunState, k: usize, exception: Exception) -> Result<(), Refusal>
        requires can { CanFail state.old k exception }
        requires serves { Serves self.old state.old (Some k) }
        ensures ok { OnOk result (seen self.new state.new ≡ settled_as (seen self.old state.old) k (o.Failed exception)) }
        ensures serves { OnOk result (Serves self.new state.new None) }
        ensures err { IfErr result (IsUndone (seen self.old state.old) (seen self.new state.new) (λ v. v ≡ settled_as (seen self.old state.old) k (o.Failed exception))) }
    {
        state.facts();
        state.fail(&mut self.graph, k, exception)?;
        self.unsettled -= 1;
        Ok(())
    }

    // It takes its value from the memo, or an attempt of it is launched on these values.
    fn attempt(&mut self, state: &mut RunState, k: usize, values: Items) -> Result<(), Refusal>
        requires may { MayAttempt state.old k values }
        requires serves { Serves self.old state.old (Some k) }
        ensures ok { OnOk result (seen self.new state.new ≡ attempted (seen self.old state.old) k (saved_at state.old k)) }
        ensures serves { OnOk result (Serves self.new state.new None) }
        ensures err { IfErr result (IsUndone (seen self.old state.old) (seen self.new state.new) (λ v. v ≡ attempted (seen self.old state.old) k (saved_at state.old k))) }
    {
        match state.recollection(k, values)? {
            Some(outcome) => self.recall(state, k, outcome),
            None => self.launch(state, k),
        }
    }

    fn recall(&mut self, state: &mut RunState, k: usize, outcome: Outcome) -> Result<(), Refusal>
        requires may { MayRecall state.old k outcome }
        requires serves { Serves self.old state.old (Some k) }
        ensures ok { OnOk result (seen self.new state.new ≡ settled_in (hit (seen self.old state.old) k) k status.MemoDone outcome) }
        ensures serves { OnOk result (Serves self.new state.new None) }
        ensures err { IfErr result (IsUndone (seen self.old state.old) (seen self.new state.new) (λ v. v ≡ settled_in (hit (seen self.old state.old) k) k status.MemoDone outcome)) }
    {
        state.facts();
        state.recall(&mut self.graph, k, outcome)?;
        self.unsettled -= 1;
        Ok(())
    }

    fn launch(&mut self, state: &mut RunState, k: usize) -> Result<(), Refusal>
        requires can { CanLaunch state.old k }
        requires serves { Serves self.old state.old (Some k) }
        ensures ok { OnOk result (seen self.new state.new ≡ launched (seen self.old state.old) k) }
        ensures serves { OnOk result (Serves self.new state.new None) }
        ensures err { IfErr result (IsUndone (seen self.old state.old) (seen self.new state.new) (λ v. v ≡ launched (seen self.old state.old) k)) }
    {
        state.facts();
        self.launched.reserve(1)?;
        state.launch(k)?;
        self.launched.push_back_reserved(k);
        Ok(())
    }

    fn run_join(&mut self, state: &mut RunState, k: usize, values: Items) -> Result<(), Refusal>
        requires can { CanRunJoin state.old k values }
        requires serves { Serves self.old state.old (Some k) }
        ensures ok { OnOk result (seen self.new state.new ≡ carried_out (seen self.old state.old) k (begin_at state.old k)) }
        ensures serves { OnOk result (Serves self.new state.new None) }
        ensures err { IfErr result (IsUndone (seen self.old state.old) (seen self.new state.new) (λ v. v ≡ carried_out (seen self.old state.old) k (begin_at state.old k))) }
    {
        state.facts();
        self.graph.facts();
        let before = state.len();
        state.run_join(&mut self.graph, k, values)?;
        state.facts();
        self.unsettled += state.len() - before;
        Ok(())
    }

    fn end_join(&mut self, state: &mut RunState, k: usize) -> Result<(), Refusal>
        requires over { IsOver state.old k }
        requires serves { Serves self.old state.old (Some k) }
        ensures ok { OnOk result (JoinEnds (seen self.old state.old) k (seen self.new state.new)) }
        ensures serves { OnOk result (Serves self.new state.new None) }
        ensures err { IfErr result (IsUndone (seen self.old state.old) (seen self.new state.new) (JoinEnds (seen self.old state.old) k)) }
    {
        state.facts();
        state.end_join(&mut self.graph, k)?;
        self.unsettled -= 1;
        Ok(())
    }

    /// Main makes a call. It gets the future of it.
    pub fn call(
        &mut self,
        state: &mut RunState,
        app: u32,
        arguments: Items,
        names: Names,
    ) -> Result<Value, Refusal>
        requires asks { MainAsks state.old (request.Call app arguments names) }
        requires serves { Serves self.old state.old None }
        ensures ok { OnOk result (state.new ≡ called state.old (call_of state.old app arguments names)) }
        ensures future { IfOk result (λ future. future ≡ future_of (call_of state.old app arguments names)) }
        ensures serves { OnOk result (Serves self.new state.new None) }
        ensures told { self.new.graph.told ≡ self.old.graph.told }
        ensures err { OnErr result (state.new ≡ state.old) }
        ensures refused { IfErr result (IsRefusedFor (λ v. v ≡ called state.old (call_of state.old app arguments names))) }
    {
        state.facts();
        self.graph.facts();
        let future = state.call(&mut self.graph, app, arguments, names)?;
        self.unsettled += 1;
        Ok(future)
    }
}
