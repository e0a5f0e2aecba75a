//! The state of a run: its tasks, what main did, and the history.

ghost use Rattle.std.specs.Prelude.{◌≡◌, ◌<◌, ◌^◌, [], ◌∷◌, length, map, None, is_some, MatchOption};
ghost use Rattle.std.specs.Option.{option_copied};
ghost use Rattle.script_tree.specs.Canonical as canonical;
ghost use Rattle.history_laws.specs.Reads.{history_of, has_end};
ghost use Rattle.kernel_model.specs.Known.{has_ended, known, path_at, settled_outcome};
ghost use Rattle.kernel_model.specs.Acts.{started_with, refused};
ghost use Rattle.kernel_model.specs.Invariants.{TextsDiffer};
ghost use Rattle.kernel_model.specs.Work.{HasRoom};
ghost use Rattle.kernel_core.specs.Tasks.{tasks_by};
ghost use Rattle.agenda_model.specs.Agendas.{running_in};
ghost use Rattle.kernel_core.specs.Turned.{IsNowhere, IsPlaceOf};
ghost use Rattle.kernel_core.specs.Views.{IsFact};

use crate::reading::Settled;
use crate::task::Task;
use app_texts::AppTexts;
use compiled_script::CompiledScript;
use dependency_graph::PathTable;
use event_log::Entry;
use flow_base::{Ending, Outcome, Path, Value};
use kernel_model::Refusal;
use memo_table::Memo;
use std::alloc::{AllocError, Global};
use std::marker::Model;

/// What main was answered, with the numbers of calls from 0.
#[derive(Drop)]
pub enum MainStep {
    /// The future of this call.
    Call(usize),
    /// The outcome of this call, for which it waited.
    Wait(usize),
    /// Its value is printed.
    Print(Value),
    /// Its checkpoint is done.
    Checkpoint,
}

/// The tasks of a run, what main did, and the history. Contracts see what is known; its newest entry
/// stands first, and no monitor is in it.
#[derive(Drop)]
pub struct RunState {
    pub(crate) alloc: Global,
    pub(crate) script: CompiledScript,
    // The texts of its apps.
    pub(crate) texts: AppTexts,
    pub(crate) tasks: Vec<Task>,
    // The paths of the tasks.
    pub(crate) places: PathTable,
    // How many calls are main's own.
    pub(crate) mains: u32,
    // How many attempts run: the log has room for their ends.
    pub(crate) running: usize,
    pub(crate) steps: Vec<MainStep>,
    // An earlier turn came to the wait at which main stands.
    pub(crate) arrived: bool,
    pub(crate) ending: Option<Ending>,
    // The values of calls of cached apps.
    pub(crate) memo: Memo,
    // The units that are stored so far.
    pub(crate) stored: u64,
    pub(crate) log: Vec<Entry>,
    pub(crate) refusal: Option<Refusal>,
}

impl Model for RunState {
    ghost use Rattle.std.specs.Prelude.{◌≡◌, ◌≤◌, ◌+◌, [], map, vec_len, vec_capacity};
    ghost use Rattle.std.specs.Coded.{codes};
    ghost use Rattle.flow_base.specs.contracts.value.Value as value;
    ghost use Rattle.script_tree.specs.contracts.tree.Statement as statement;
    ghost use Rattle.script_tree.specs.contracts.tree.Expr as expr;
    ghost use Rattle.script_tree.specs.contracts.tree.CallExpr as call;
    ghost use Rattle.script_tree.specs.Canonical as canonical;
    ghost use Rattle.kernel_model.specs.Known.{Known};
    ghost use Rattle.kernel_core.specs.Views.{known_with, IsSound, IsIndexed};

    ghost Value = { Known };

    ghost coded = { Prim.hlevel (codes, value.the_row.coded, statement.the_row.coded, expr.the_row.coded, call.the_row.coded) };

    ghost view = { λ s. known_with s.script.tree s.tasks.items s.steps.items s.arrived s.ending s.memo s.log.items s.refusal [] };

    ghost invariant = { λ s.
        IsSound (known_with s.script.tree s.tasks.items s.steps.items s.arrived s.ending s.memo s.log.items s.refusal []) s.tasks.items s.steps.items s.running s.stored
        × IsIndexed (known_with s.script.tree s.tasks.items s.steps.items s.arrived s.ending s.memo s.log.items s.refusal []) s.places s.mains
        × (s.texts ≡ map canonical.app s.script.tree.0)
        × (vec_len s.log + s.running ≤ vec_capacity s.log) };
}

impl RunState {
    /// The state of a run before any turn.
    pub fn new(alloc: Global, script: CompiledScript, texts: AppTexts) -> RunState
        requires few { length script.tree.0 < 2 ^ 32 }
        requires texts { texts ≡ map canonical.app script.tree.0 }
        requires differ { TextsDiffer script.tree }
        ensures { result ≡ started_with script.tree [] }
    {
        RunState {
            alloc,
            script,
            texts,
            tasks: Vec::new(alloc),
            places: PathTable::new(alloc),
            mains: 0,
            running: 0,
            steps: Vec::new(alloc),
            arrived: false,
            ending: None,
            memo: Memo::new(alloc),
            stored: 0,
            log: Vec::new(alloc),
            refusal: None,
        }
    }

    /// What holds of every state of a run.
    pub fn facts(&self)
        ensures fact { IsFact self.now }
        ensures room { HasRoom (2 ^ 64) self.now }
    {
        let _ = self.tasks.len();
        let _ = self.steps.len();
        let _ = self.log.len();
    }

    /// A turn is refused for this.
    pub fn refuse(&mut self, refusal: Refusal)
        ensures { self.new ≡ refused self.old refusal }
    {
        self.refusal = Some(refusal);
    }

    /// Whether the end stands, or a turn was refused.
    pub fn ended(&self) -> bool
        ensures { result ≡ has_ended self.now }
    {
        if self.refusal.is_some() {
            return true;
        }
        match self.log.last() {
            Some(entry) => is_end(entry),
            None => false,
        }
    }

    /// Whether main has ended.
    pub fn is_main_over(&self) -> bool
        ensures { result ≡ is_some self.now.ending }
    {
        self.ending.is_some()
    }

    /// How many tasks there are.
    pub fn len(&self) -> usize
        ensures { result ≡ length self.now.calls }
    {
        self.tasks.len()
    }

    /// How many attempts run.
    pub fn running(&self) -> usize
        ensures { result ≡ running_in self.now.lives }
    {
        self.running
    }

    /// The outcome of the task of this number, once it is settled.
    pub fn outcome(&self, k: usize) -> Option<&Outcome>
        requires { k < length self.now.calls }
        ensures { option_copied result ≡ settled_outcome self.now k }
    {
        self.tasks[k].outcome()
    }

    /// The number of the task of this path.
    pub fn place(&self, path: &Path) -> Option<usize>
        ensures { MatchOption result (IsNowhere self.now path.now) (IsPlaceOf self.now path.now) }
    {
        self.places.place(path)
    }

    /// Its tasks, with the outcomes of those that are settled.
    pub fn settled(&self) -> Settled<'_>
        ensures { tasks_by result.places.now result.tasks.now ≡ known self.now }
    {
        Settled {
            tasks: self.tasks.as_slice(),
            places: &self.places,
        }
    }

    /// The path of the task of this number.
    pub fn path(&self, k: usize) -> &Path
        requires { k < length self.now.calls }
        ensures { result.now ≡ path_at self.now k }
    {
        self.tasks[k].record.path()
    }
}

fn is_end(entry: &Entry) -> bool
    ensures { result ≡ has_end (entry.now ∷ []) }
{
    matches!(entry, Entry::End)
}
