//! The turns of attempts, and the end.

ghost use Rattle.std.specs.Prelude.{◌≡◌, None, false, length, IfOk, IfErr, IfSome, OnOk, OnErr, MatchOption};
ghost use Rattle.flow_meaning.specs.Sequential.{outcome_of as the_outcome};
ghost use Rattle.kernel_model.specs.Known.{has_ended, apps_in};
ghost use Rattle.kernel_model.specs.Turns.{FetchTurn, DeliverTurn, StoreTurn, SettleTurn, EndTurn, Stores, Settles, IsEndOf};
ghost use Rattle.agenda_model.specs.Agendas.{Serves, seen};
ghost use Rattle.kernel_core.specs.Jobs.{FitsApps};
ghost use Rattle.kernel_core.specs.Memo.{IsFirstUnstored, IsKeptPlace, NoKeptPlace};
ghost use Rattle.kernel_core.specs.Refused.{IsUndone};

use crate::agenda::Agenda;
use crate::job::{Done, Job};
use crate::run_state::RunState;
use dependency_graph::Monitor;
use flow_base::{Ended, Outcome};
use kernel_model::{Delivered, Refusal};
use memo_table::Key;
use std::alloc::AllocError;

impl<M: Monitor> Agenda<M> {
    /// Starts the attempt that waits longest, and gives its job. None exactly where no attempt waits.
    pub fn take_job(&mut self, state: &mut RunState) -> Result<Option<Job>, AllocError>
        requires going { has_ended state.old ≡ false }
        requires serves { Serves self.old state.old None }
        ensures turn { IfOk result (λ job. FetchTurn (seen self.old state.old) job (seen self.new state.new)) }
        ensures fits { IfOk result (λ job. IfSome job (FitsApps (apps_in state.old))) }
        ensures serves { OnOk result (Serves self.new state.new None) }
        ensures err { OnErr result (seen self.new state.new ≡ seen self.old state.old) }
    {
        let Some(k) = self.launched.pop_front() else {
            return Ok(None);
        };
        state.facts();
        let job = state.job(k)?;
        self.over.reserve(state.running() + 1)?;
        state.start(k)?;
        Ok(Some(job))
    }

    /// Takes the end of an attempt. Stale exactly where the attempt isn't running or its job differs.
    pub fn deliver(&mut self, state: &mut RunState, done: Done) -> Delivered
        requires going { has_ended state.old ≡ false }
        requires end { IsEndOf (apps_in state.old) done }
        requires serves { Serves self.old state.old None }
        ensures turn { DeliverTurn (seen self.old state.old) done result (seen self.new state.new) }
        ensures serves { Serves self.new state.new None }
    {
        state.facts();
        let Some(k) = state.running_as(&done.job) else {
            return Delivered::Stale;
        };
        let Done { job, ended, word } = done;
        let Job { path, .. } = job;
        state.finish(k, path, word, outcome_of(ended));
        self.over.push_back_reserved(k);
        Delivered::Taken
    }

    /// Stores the value of the task whose attempt is over longest, of those whose values are to be stored. False
    /// exactly where there is none.
    pub fn store_one(&mut self, state: &mut RunState) -> Result<bool, Refusal>
        requires going { has_ended state.old ≡ false }
        requires serves { Serves self.old state.old None }
        ensures turn { IfOk result (λ did. StoreTurn (seen self.old state.old) did (seen self.new state.new)) }
        ensures serves { OnOk result (Serves self.new state.new None) }
        ensures err { IfErr result (IsUndone (seen self.old state.old) (seen self.new state.new) (Stores (seen self.old state.old))) }
    {
        state.facts();
        let Some((k, key)) = self.first_unstored(state)? else {
            return Ok(false);
        };
        state.store(k, key)?;
        self.kept += 1;
        Ok(true)
    }

    // Passes the tasks that need no storing, up to the first whose value is to be stored. None where there is none.
    fn first_unstored(&mut self, state: &RunState) -> Result<Option<(usize, Key)>, AllocError>
        requires serves { Serves self.old state.now None }
        ensures same { self.new ≡ record self.old { kept = self.new.kept } }
        ensures serves { Serves self.new state.now None }
        ensures found { IfOk result (λ found. MatchOption found (self.new.kept ≡ length self.new.over) (λ e. IsFirstUnstored self.new state.now e.0 e.1)) }
    {
        state.facts();
        while let Some(k) = self.over.get(self.kept) {
            let k = *k;
            if let Some(key) = state.unstored(k)? {
                return Ok(Some((k, key)));
            }
            self.kept += 1;
        }
        Ok(None)
    }

    // The place of a task that may settle: the first, where that is known to need no storing.
    fn first_kept(&self, state: &RunState) -> Result<Option<usize>, AllocError>
        requires serves { Serves self.now state.now None }
        ensures { IfOk result (λ place. MatchOption place (NoKeptPlace self.now state.now) (IsKeptPlace self.now state.now)) }
    {
        state.facts();
        if self.kept > 0 {
            return Ok(Some(0));
        }
        for i in 0..self.over.len() {
            if state.unstored(self.over[i])?.is_none() {
                return Ok(Some(i));
            }
        }
        Ok(None)
    }

    /// Settles the task whose attempt is over longest, of those whose values need no storing. False exactly where there
    /// is none.
    pub fn settle_one(&mut self, state: &mut RunState) -> Result<bool, Refusal>
        requires going { has_ended state.old ≡ false }
        requires serves { Serves self.old state.old None }
        ensures turn { IfOk result (λ did. SettleTurn (seen self.old state.old) did (seen self.new state.new)) }
        ensures serves { OnOk result (Serves self.new state.new None) }
        ensures err { IfErr result (IsUndone (seen self.old state.old) (seen self.new state.new) (Settles (seen self.old state.old))) }
    {
        let Some(i) = self.first_kept(state)? else {
            return Ok(false);
        };
        let Some(k) = self.over.remove(i) else {
            unreachable!();
        };
        state.facts();
        state.settle(&mut self.graph, k)?;
        self.kept = self.kept.saturating_sub(1);
        self.unsettled -= 1;
        Ok(true)
    }

    /// Adds the end. False exactly where main has not ended or a task isn't settled.
    pub fn end_run(&self, state: &mut RunState) -> Result<bool, AllocError>
        requires going { has_ended state.old ≡ false }
        requires serves { Serves self.now state.old None }
        ensures turn { IfOk result (λ did. EndTurn state.old did state.new) }
        ensures serves { OnOk result (Serves self.now state.new None) }
        ensures err { OnErr result (state.new ≡ state.old) }
    {
        if !state.is_main_over() {
            return Ok(false);
        }
        state.facts();
        if self.unsettled > 0 {
            return Ok(false);
        }
        state.end()?;
        Ok(true)
    }
}

fn outcome_of(ended: Ended) -> Outcome
    ensures { result ≡ the_outcome ended }
{
    match ended {
        Ended::Value { value, files } => Outcome::Value { value, files },
        Ended::Raised(exception) => Outcome::Failed(exception),
    }
}
