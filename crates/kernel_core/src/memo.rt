//! The acts of the memo: a task takes its value from it, or its value is stored there.

ghost use Rattle.std.specs.Prelude.{◌≡◌, ◌<◌, ◌+◌, ◌-◌, ◌^◌, Some, length, min, slice_get, IfOk, IfErr, OnOk, OnErr, MatchOption};
ghost use Rattle.flow_base.specs.declared.outcome.Outcome.TheVariants as o;
ghost use Rattle.script_tree.specs.declared.tree.AppDef.{AppDef as AppOf};
ghost use Rattle.script_tree.specs.Canonical as canonical;
ghost use Rattle.task_record.specs.declared.status.Status.TheVariants as status;
ghost use Rattle.dependency_graph.specs.Graphs.{IsOpenTask, with_settlement};
ghost use Rattle.memo_table.specs.declared.saved.Saved.{Saved as SavedOf};
ghost use Rattle.kernel_model.specs.Acts.{hit, settled_in, settlement_as, stored_by};
ghost use Rattle.kernel_model.specs.Known.{apps_in, call_at, life_at, path_at, status_at, value_of};
ghost use Rattle.kernel_model.specs.Limits.{IsRefusedFor, units_of_key};
ghost use Rattle.kernel_model.specs.Turns.{IsStore, Stores};
ghost use Rattle.kernel_core.specs.Memo.{IsKeptTask, IsUnstored, MayAttempt, MayRecall, MayStore, IsValue, is_cached_app, is_valued, recalled_outcome};
ghost use Rattle.kernel_core.specs.Settlements.{MayTell};

use crate::run_state::RunState;
use dependency_graph::{Graph, Monitor, Settlement, resolve};
use event_log::Entry;
use flow_base::{Items, Outcome, copy_files, copy_names};
use kernel_model::Refusal;
use memo_table::{Key, Saved};
use std::alloc::{AllocError, Global};
use stored_units::{MAX_STORED, call_units, outcome_units};
use task_record::Status;

impl RunState {
    /// What the memo has of a task that would be launched on these values.
    pub fn recollection(&self, k: usize, values: Items) -> Result<Option<Outcome>, AllocError>
        requires { MayAttempt self.now k values }
        ensures { IfOk result (λ found. found ≡ recalled_outcome self.now k) }
    {
        self.facts();
        if !self.is_cached(k) {
            return Ok(None);
        }
        let key = self.key(k, values)?;
        match self.memo.look(&key) {
            Some(saved) => Ok(Some(saved_outcome(self.alloc, saved)?)),
            None => Ok(None),
        }
    }

    /// The key by which the value of a task is to be stored whose attempt is over. None where nothing is to be stored.
    pub fn unstored(&self, k: usize) -> Result<Option<Key>, AllocError>
        requires { status_at self.now k ≡ status.RunningEnded }
        ensures { IfOk result (λ key. MatchOption key (IsKeptTask self.now k) (IsUnstored self.now k)) }
    {
        self.facts();
        if !self.has_value(k) || !self.is_cached(k) {
            return Ok(None);
        }
        let arguments = self.tasks[k].record.arguments();
        let values = resolve(self.alloc, &self.settled(), arguments.as_slice())?;
        let key = self.key(k, values)?;
        if self.memo.look(&key).is_some() {
            return Ok(None);
        }
        Ok(Some(key))
    }

    // Whether its last attempt, or the task itself, ended with a value.
    fn has_value(&self, k: usize) -> bool
        requires { k < length self.now.calls }
        ensures { result ≡ is_valued (life_at self.now k).end }
    {
        matches!(&self.tasks[k].end, Some(Outcome::Value { .. }))
    }

    fn is_cached(&self, k: usize) -> bool
        requires { k < length self.now.calls }
        ensures { result ≡ is_cached_app (slice_get (apps_in self.now) (call_at self.now k).app) }
    {
        let app = self.tasks[k].record.app();
        match self.script.script().apps().get(app as usize) {
            Some(app) => app.cached,
            None => false,
        }
    }

    // The key of the task's call on these values.
    fn key(&self, k: usize, values: Items) -> Result<Key, AllocError>
        requires within { k < length self.now.calls }
        requires there { (call_at self.now k).app < length (apps_in self.now) }
        ensures { IfOk result (λ key. (app : AppOf) → slice_get (apps_in self.now) (call_at self.now k).app ≡ Some app → key ≡ record { app = canonical.app app; arguments = values; names = (call_at self.now k).names }) }
    {
        let record = &self.tasks[k].record;
        let text = self.texts.get(record.app()).clone()?;
        let names = copy_names(self.alloc, record.names().as_slice())?;
        Key::new(self.alloc, text, values, names)
    }

    /// The value of the task's attempt is stored by this key.
    pub fn store(&mut self, k: usize, key: Key) -> Result<(), Refusal>
        requires { MayStore self.old k key }
        ensures ok { OnOk result ((saved : SavedOf) → IsStore self.old k key saved → self.new ≡ stored_by self.old k key saved) }
        ensures err { OnErr result (self.new ≡ self.old) }
        ensures refused { IfErr result (IsRefusedFor (Stores self.old)) }
    {
        let Some(outcome) = &self.tasks[k].end else {
            unreachable!();
        };
        let units = key_units(&key).saturating_add(outcome_units(outcome));
        if units > MAX_STORED - self.stored {
            return Err(Refusal::StoreLimit);
        }
        let saved = saved_of(self.alloc, outcome)?;
        let path = self.tasks[k].record.path().copy(self.alloc)?;
        self.log.reserve(self.running + 1)?;
        self.memo.store(key, saved)?;
        self.stored += units;
        self.log.push_reserved(Entry::Stored { path });
        Ok(())
    }

    /// The task is settled by this outcome, which the memo has of it.
    pub fn recall<M: Monitor>(
        &mut self,
        graph: &mut Graph<M>,
        k: usize,
        outcome: Outcome,
    ) -> Result<(), Refusal>
        requires may { MayRecall self.old k outcome }
        requires opened { IsOpenTask graph.old (path_at self.old k) }
        ensures ok { OnOk result (self.new ≡ settled_in (hit self.old k) k status.MemoDone outcome) }
        ensures settled { OnOk result (graph.new ≡ with_settlement (settlement_as self.old k status.MemoDone outcome) graph.old) }
        ensures err { OnErr result (self.new ≡ self.old) }
        ensures told { IfErr result (MayTell (settlement_as self.old k status.MemoDone outcome) graph.old graph.new) }
        ensures refused { IfErr result (IsRefusedFor (λ v. v ≡ settled_in (hit self.old k) k status.MemoDone outcome)) }
    {
        let units = outcome_units(&outcome);
        if units > MAX_STORED - self.stored {
            return Err(Refusal::StoreLimit);
        }
        let hit_path = self.tasks[k].record.path().copy(self.alloc)?;
        let path = self.tasks[k].record.path().copy(self.alloc)?;
        self.log.reserve(self.running + 2)?;
        let settlement = Settlement {
            path,
            status: Status::MemoDone,
            outcome,
        };
        graph.settled(&settlement)?;
        let Settlement { path, outcome, .. } = settlement;
        self.tasks[k].record.finish(Status::MemoDone);
        self.tasks[k].end = Some(outcome);
        self.stored += units;
        self.log.push_reserved(Entry::MemoHit { path: hit_path });
        self.log.push_reserved(Entry::Settled {
            path,
            status: Status::MemoDone,
        });
        Ok(())
    }
}

// The units of a key. A sum past 64 bits is 2^64 - 1.
fn key_units(key: &Key) -> u64
    ensures { result ≡ min (units_of_key key.now) (2 ^ 64 - 1) }
{
    let text = key.app().len() as u64;
    text.saturating_add(call_units(key.arguments().as_slice(), key.names().as_slice()))
}

fn saved_outcome(alloc: Global, saved: &Saved) -> Result<Outcome, AllocError>
    ensures { IfOk result (λ outcome. outcome ≡ value_of saved.now) }
{
    Ok(Outcome::Value {
        value: saved.value.copy(alloc)?,
        files: copy_files(alloc, saved.files.as_slice())?,
    })
}

// What is stored of a value.
fn saved_of(alloc: Global, outcome: &Outcome) -> Result<Saved, AllocError>
    requires { IsValue outcome.now }
    ensures { IfOk result (λ saved. value_of saved ≡ outcome.now) }
{
    match outcome {
        Outcome::Value { value, files } => Ok(Saved {
            value: value.copy(alloc)?,
            files: copy_files(alloc, files.as_slice())?,
        }),
        Outcome::Failed(_) => unreachable!(),
    }
}
