//! The kernel of a run: its state, and main's walk.

ghost use Rattle.std.specs.Prelude.{◌≡◌, ◌<◌, ◌^◌, ◌-◌, [], length, map, IfOk, IfErr};
ghost use Rattle.std.specs.Arc.{arc_value};
ghost use Rattle.flow_meaning.specs.Walk.{main_act};
ghost use Rattle.history_laws.specs.Reads.{history_of};
ghost use Rattle.kernel_model.specs.Known.{has_ended};
ghost use Rattle.kernel_model.specs.Acts.{started_with};
ghost use Rattle.kernel_model.specs.declared.answers.Refusal.TheVariants.{NoMemory};
ghost use Rattle.kernel_core.specs.MainWalks.{IsReady, left_in, rest_in};

use crate::agenda::Agenda;
use crate::main_walk::MainWalk;
use crate::run_state::RunState;
use app_texts::AppTexts;
use compiled_script::CompiledScript;
use dependency_graph::Monitor;
use event_log::Entry;
use kernel_model::Refusal;
use script_tree::checked::Checked;
use std::alloc::{AllocError, Global};
use std::marker::Model;
use std::sync::Arc;

/// What a run begins with.
#[derive(Drop)]
pub struct Opening {
    pub script: Arc<Checked>,
}

/// A kernel that could not be opened, for this, and the monitors.
#[derive(Drop)]
pub struct NotOpened<M: Monitor> {
    pub refusal: Refusal,
    pub monitors: Vec<M>,
}

/// The tasks of a run, main, the history, and the monitors. Contracts see what is known; its newest entry stands first.
#[derive(Drop)]
pub struct Kernel<M: Monitor> {
    pub(crate) state: RunState,
    // It follows the state until a turn is refused.
    pub(crate) agenda: Agenda<M>,
    // It follows the state until main ends or a turn is refused.
    pub(crate) main: MainWalk,
}

impl<M: Monitor> Model for Kernel<M> {
    ghost use Rattle.std.specs.Prelude.{◌≡◌, None};
    ghost use Rattle.std.specs.Coded.{codes};
    ghost use Rattle.flow_base.specs.contracts.value.Value as value;
    ghost use Rattle.script_tree.specs.contracts.tree.Statement as statement;
    ghost use Rattle.script_tree.specs.contracts.tree.Expr as expr;
    ghost use Rattle.script_tree.specs.contracts.tree.CallExpr as call;
    ghost use Rattle.body_program.specs.contracts.code.Code as code;
    ghost use Rattle.body_program.specs.contracts.code.Step as step;
    ghost use Rattle.app_eval.specs.contracts.position.InnerPosition as position;
    ghost use Rattle.kernel_model.specs.Known.{Known};
    ghost use Rattle.agenda_model.specs.Agendas.{Serves, seen};
    ghost use Rattle.kernel_core.specs.MainWalks.{Stands};

    ghost Value = { Known };

    ghost coded = { Prim.hlevel (codes, value.the_row.coded, statement.the_row.coded, expr.the_row.coded, call.the_row.coded, code.the_row.coded, step.the_row.coded, position.the_row.coded) };

    ghost view = { λ k. seen k.agenda k.state };

    ghost invariant = { λ k. k.state.refusal ≡ None → Serves k.agenda k.state None × (k.state.ending ≡ None → Stands k.main k.state) };
}

impl<M: Monitor> Kernel<M> {
    /// The kernel of a script before any turn. Only want of memory refuses it.
    pub fn new(alloc: Global, opening: Opening, monitors: Vec<M>) -> Result<Kernel<M>, NotOpened<M>>
        requires { length (arc_value opening.script).tree.0 < 2 ^ 32 }
        ensures ok { IfOk result (λ kernel. kernel ≡ started_with (arc_value opening.script).tree (map M.told monitors.items)) }
        ensures err { IfErr result (λ not_opened. (not_opened.refusal ≡ NoMemory) × (not_opened.monitors ≡ monitors)) }
    {
        let Ok((state, main)) = begin(alloc, opening.script) else {
            return Err(NotOpened {
                refusal: Refusal::NoMemory,
                monitors,
            });
        };
        Ok(Kernel {
            state,
            agenda: Agenda::new(alloc, monitors),
            main,
        })
    }

    /// Whether the end stands, or a turn was refused: no turn may be taken any more.
    pub fn ended(&self) -> bool
        ensures { result ≡ has_ended self.now }
    {
        self.state.ended()
    }

    /// The entries so far, the oldest first.
    pub fn history(&self) -> &[Entry]
        ensures { history_of result.now ≡ self.now.past }
    {
        self.state.log.as_slice()
    }

    /// The script of the run.
    pub fn script(&self) -> &CompiledScript
        ensures { result.now.tree ≡ self.now.tree }
    {
        &self.state.script
    }
}

// The state before any turn, and main's walk.
fn begin(alloc: Global, script: Arc<Checked>) -> Result<(RunState, MainWalk), AllocError>
    requires { length (arc_value script).tree.0 < 2 ^ 32 }
    ensures state { IfOk result (λ both. both.0 ≡ started_with (arc_value script).tree []) }
    ensures left { IfOk result (λ both. left_in both.1 ≡ main_act (arc_value script).tree) }
    ensures rest { IfOk result (λ both. rest_in both.1 ≡ 2 ^ 64 - 1) }
    ensures ready { IfOk result (λ both. IsReady both.1) }
{
    let script = CompiledScript::of(alloc, script)?;
    let texts = AppTexts::of(alloc, script.script())?;
    let main = MainWalk::new(alloc, &script)?;
    // Some text has the script, and it breaks no rule: no two apps have one text.
    let _ = script.script().apps();
    Ok((RunState::new(alloc, script, texts), main))
}
