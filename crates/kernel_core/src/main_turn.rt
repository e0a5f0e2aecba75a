//! A turn of main: one want.

ghost use Rattle.std.specs.Prelude.{◌≡◌, None, false, IfOk, OnOk, OnErr, IfErr, MatchOption};
ghost use Rattle.flow_meaning.specs.declared.walk.Request.TheVariants as request;
ghost use Rattle.kernel_model.specs.Known.{has_ended, settled_outcome};
ghost use Rattle.kernel_model.specs.Conditions.{MainAsks};
ghost use Rattle.kernel_model.specs.Limits.{IsRefusedFor};
ghost use Rattle.kernel_model.specs.Turns.{script_step, request_step};
ghost use Rattle.agenda_model.specs.Agendas.{Serves};
ghost use Rattle.kernel_core.specs.MainTurns.{IsOfCall, IsOfNoCall, IsWaitOf, ending_in};
ghost use Rattle.kernel_core.specs.MainWalks.{IsTaken, Stands};

use crate::agenda::Agenda;
use crate::main_walk::MainWalk;
use crate::run_state::RunState;
use app_eval::Want;
use dependency_graph::Monitor;
use flow_base::{Ended, Ending, Items, Names, Value};
use flow_meaning::{Answer, Request};
use kernel_model::{Refusal, ScriptTurn};

/// Main goes on by one want. `Over` where it had ended; `Waiting` where it waits, since an earlier turn,
/// for a task that isn't settled.
pub fn turn_main<M: Monitor>(
    state: &mut RunState,
    agenda: &mut Agenda<M>,
    main: &mut MainWalk,
) -> Result<ScriptTurn, Refusal>
    requires going { has_ended state.old ≡ false }
    requires stands { state.old.ending ≡ None → Stands main.old state.old }
    requires serves { Serves agenda.old state.old None }
    ensures answer { IfOk result (λ answer. answer ≡ (script_step state.old).0) }
    ensures after { OnOk result (state.new ≡ (script_step state.old).1) }
    ensures stands { OnOk result (state.new.ending ≡ None → Stands main.new state.new) }
    ensures serves { OnOk result (Serves agenda.new state.new None) }
    ensures told { agenda.new.graph.told ≡ agenda.old.graph.told }
    ensures err { OnErr result (state.new ≡ state.old) }
    ensures refused { IfErr result (IsRefusedFor (λ v. v ≡ (script_step state.old).1)) }
{
    if state.is_main_over() {
        return Ok(ScriptTurn::Over);
    }
    // An answer has room, so the walk may go on.
    state.reserve_step()?;
    match main.take(state.alloc)? {
        Want::Ended(ended) => {
            state.end_main(ending_of(ended));
            Ok(ScriptTurn::Advanced)
        }
        Want::Asks(request) => answer(state, agenda, main, request),
    }
}

// Main asked for this.
fn answer<M: Monitor>(
    state: &mut RunState,
    agenda: &mut Agenda<M>,
    main: &mut MainWalk,
    request: Request,
) -> Result<ScriptTurn, Refusal>
    requires asks { MainAsks state.old request }
    requires taken { IsTaken main.old state.old }
    requires serves { Serves agenda.old state.old None }
    ensures answer { IfOk result (λ answer. answer ≡ (request_step state.old request).0) }
    ensures after { OnOk result (state.new ≡ (request_step state.old request).1) }
    ensures stands { OnOk result (Stands main.new state.new) }
    ensures serves { OnOk result (Serves agenda.new state.new None) }
    ensures told { agenda.new.graph.told ≡ agenda.old.graph.told }
    ensures err { OnErr result (state.new ≡ state.old) }
    ensures refused { IfErr result (IsRefusedFor (λ v. v ≡ (request_step state.old request).1)) }
{
    state.facts();
    match request {
        Request::Call {
            app,
            arguments,
            names,
        } => call(state, agenda, main, app, arguments, names),
        Request::Print(value) => print(state, main, value),
        Request::Checkpoint => checkpoint(state, main),
        Request::WaitValue(future) => match awaited(state, &future) {
            Some(k) => wait(state, main, k, Request::WaitValue(future)),
            None => unreachable!(),
        },
        Request::WaitName(future) => match awaited(state, &future) {
            Some(k) => wait(state, main, k, Request::WaitName(future)),
            None => unreachable!(),
        },
    }
}

fn call<M: Monitor>(
    state: &mut RunState,
    agenda: &mut Agenda<M>,
    main: &mut MainWalk,
    app: u32,
    arguments: Items,
    names: Names,
) -> Result<ScriptTurn, Refusal>
    requires asks { MainAsks state.old (request.Call app arguments names) }
    requires taken { IsTaken main.old state.old }
    requires serves { Serves agenda.old state.old None }
    ensures answer { IfOk result (λ answer. answer ≡ (request_step state.old (request.Call app arguments names)).0) }
    ensures after { OnOk result (state.new ≡ (request_step state.old (request.Call app arguments names)).1) }
    ensures stands { OnOk result (Stands main.new state.new) }
    ensures serves { OnOk result (Serves agenda.new state.new None) }
    ensures told { agenda.new.graph.told ≡ agenda.old.graph.told }
    ensures err { OnErr result (state.new ≡ state.old) }
    ensures refused { IfErr result (IsRefusedFor (λ v. v ≡ (request_step state.old (request.Call app arguments names)).1)) }
{
    let future = agenda.call(state, app, arguments, names)?;
    main.tell(Answer::Called(future));
    Ok(ScriptTurn::Advanced)
}

fn print(state: &mut RunState, main: &mut MainWalk, value: Value) -> Result<ScriptTurn, Refusal>
    requires asks { MainAsks state.old (request.Print value) }
    requires taken { IsTaken main.old state.old }
    ensures answer { IfOk result (λ answer. answer ≡ (request_step state.old (request.Print value)).0) }
    ensures after { OnOk result (state.new ≡ (request_step state.old (request.Print value)).1) }
    ensures stands { OnOk result (Stands main.new state.new) }
    ensures err { OnErr result (state.new ≡ state.old) }
    ensures refused { IfErr result (IsRefusedFor (λ v. v ≡ (request_step state.old (request.Print value)).1)) }
{
    state.print(value)?;
    main.tell(Answer::Go);
    Ok(ScriptTurn::Advanced)
}

fn checkpoint(state: &mut RunState, main: &mut MainWalk) -> Result<ScriptTurn, Refusal>
    requires asks { MainAsks state.old request.Checkpoint }
    requires taken { IsTaken main.old state.old }
    ensures answer { IfOk result (λ answer. answer ≡ (request_step state.old request.Checkpoint).0) }
    ensures after { OnOk result (state.new ≡ (request_step state.old request.Checkpoint).1) }
    ensures stands { OnOk result (Stands main.new state.new) }
    ensures err { OnErr result (state.new ≡ state.old) }
    ensures refused { IfErr result (IsRefusedFor (λ v. v ≡ (request_step state.old request.Checkpoint).1)) }
{
    state.checkpoint()?;
    main.tell(Answer::Go);
    Ok(ScriptTurn::Advanced)
}

// Main waits for the call of this number.
fn wait(
    state: &mut RunState,
    main: &mut MainWalk,
    k: usize,
    request: Request,
) -> Result<ScriptTurn, Refusal>
    requires asks { MainAsks state.old request }
    requires waits { IsWaitOf state.old request k }
    requires taken { IsTaken main.old state.old }
    ensures answer { IfOk result (λ answer. answer ≡ (request_step state.old request).0) }
    ensures after { OnOk result (state.new ≡ (request_step state.old request).1) }
    ensures stands { OnOk result (Stands main.new state.new) }
    ensures err { OnErr result (state.new ≡ state.old) }
    ensures refused { IfErr result (IsRefusedFor (λ v. v ≡ (request_step state.old request).1)) }
{
    state.facts();
    let alloc = state.alloc;
    let Some(outcome) = state.outcome(k) else {
        return stay(state, main, k, request);
    };
    let outcome = outcome.copy(alloc)?;
    state.wait(k)?;
    main.tell(Answer::Outcome(outcome));
    Ok(ScriptTurn::Advanced)
}

// Main stays at its wait for a call that isn't settled.
fn stay(
    state: &mut RunState,
    main: &mut MainWalk,
    k: usize,
    request: Request,
) -> Result<ScriptTurn, Refusal>
    requires asks { MainAsks state.old request }
    requires waits { IsWaitOf state.old request k }
    requires unsettled { settled_outcome state.old k ≡ None }
    requires taken { IsTaken main.old state.old }
    ensures answer { IfOk result (λ answer. answer ≡ (request_step state.old request).0) }
    ensures after { OnOk result (state.new ≡ (request_step state.old request).1) }
    ensures stands { OnOk result (Stands main.new state.new) }
    ensures err { OnErr result (state.new ≡ state.old) }
    ensures refused { IfErr result (IsRefusedFor (λ v. v ≡ (request_step state.old request).1)) }
{
    state.facts();
    let path = state.path(k).copy(state.alloc)?;
    main.keep(request);
    if state.arrive() {
        Ok(ScriptTurn::Advanced)
    } else {
        Ok(ScriptTurn::Waiting(path))
    }
}

// The number of the task that a future or an output is of.
fn awaited(state: &RunState, value: &Value) -> Option<usize>
    ensures { MatchOption result (IsOfNoCall state.now value.now) (IsOfCall state.now value.now) }
{
    match value {
        Value::Future { path, .. } => state.place(path),
        Value::Output { path, .. } => state.place(path),
        _ => None,
    }
}

fn ending_of(ended: Ended) -> Ending
    ensures { result ≡ ending_in ended }
{
    match ended {
        Ended::Value { .. } => Ending::Ended,
        Ended::Raised(exception) => Ending::Raised(exception),
    }
}
