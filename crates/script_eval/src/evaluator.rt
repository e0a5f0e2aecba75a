//! Bodies with their calls, each evaluated at once.

ghost use Rattle.std.specs.Prelude.{◌≡◌, ◌<◌, ◌≤◌, ◌-◌, ◌^◌, suc, [], length, slice_get, Some, true, IfOk, IfSome, OnOk};
ghost use Rattle.std.specs.Option.{option_copied};
ghost use Rattle.flow_base.specs.Paths.{max_path};
ghost use Rattle.flow_base.specs.declared.value.Value.{out-Value};
ghost use Rattle.flow_base.specs.declared.value.Value.TheVariants as v;
ghost use Rattle.flow_meaning.specs.Evaluations.{name_in};
ghost use Rattle.flow_meaning.specs.Inputs.{path_in};
ghost use Rattle.flow_meaning.specs.Sequential as sequential;
ghost use Rattle.compiled_script.specs.Programs.{IsJoin, IsPlainApp};
ghost use Rattle.script_eval.specs.Lost.{loss_at};
ghost use Rattle.script_eval.specs.Answering.{Begins, BodyGives, CallGives, CanCall, IsEmpty, JoinAnswers, MainAnswers, MainGives, RanGives, body_ran, calls_after, join_at, rule_at, rule_below, settled_from, wait_answer};

use crate::evaluation::EvalFault;
use crate::group::Group;
use crate::losses::Losses;
use crate::state::{EvalState, OpenCall};
use crate::walking::CountedWalk;
use app_eval::{Reply, Want, apply};
use compiled_script::CompiledScript;
use dependency_graph::{Outcomes, Readiness, readiness_of};
use flow_base::{Ended, Exception, Items, MAX_PATH, Names, Outcome, Path, Text, Value};
use flow_meaning::{Answer, Request};
use join_apps::join_outcome;
use script_tree::tree::AppDef;
use sqlite_items::at;
use std::alloc::{AllocError, Global};

/// What calls are evaluated by.
#[derive(Drop)]
pub struct Evaluator<'a> {
    pub alloc: Global,
    pub script: &'a CompiledScript,
    pub losses: &'a Losses,
}

/// A body that is run, main's or a join's.
#[derive(Drop)]
pub struct Caller<'a> {
    /// The path of its task.
    pub path: &'a Path,
    /// The place of its first call among the tasks.
    pub first: usize,
    /// How many calls it made.
    pub calls: u32,
}

impl Evaluator<'_> {
    /// Main with its calls.
    pub fn run_main(&self, state: &mut EvalState) -> Result<Ended, EvalFault>
        requires few { length self.now.script.now.tree.0 < 2 ^ 32 }
        requires empty { IsEmpty state.old }
        ensures { MainGives self.now.script.now.tree (loss_at self.now.losses.now) state.new result }
    {
        let path = Path::new(self.alloc);
        let mut caller = Caller {
            path: &path,
            first: 0,
            calls: 0,
        };
        let mut walk = CountedWalk::main(self.alloc, self.script)?;
        let mut reply = Reply::Begin;
        'requests: loop {
            match walk.resume(self.alloc, reply)? {
                Want::Asks(request) => {
                    reply = Reply::Told(self.answer(state, &mut caller, request)?);
                }
                Want::Ended(ended) => return Ok(ended),
            }
        }
    }

    /// What a request of main is answered.
    fn answer(
        &self,
        state: &mut EvalState,
        caller: &mut Caller,
        request: Request,
    ) -> Result<Answer, EvalFault>
        requires few { length self.now.script.now.tree.0 < 2 ^ 32 }
        requires short { length caller.old.path.now < max_path }
        requires stands { CanCall caller.old.path.now caller.old.first caller.old.calls state.old }
        ensures gives { MainAnswers self.now.script.now.tree (loss_at self.now.losses.now) caller.old.path.now caller.old.first caller.old.calls request state.old state.new result }
        ensures counted { OnOk result (caller.new ≡ record caller.old { calls = calls_after self.now.script.now.tree (loss_at self.now.losses.now) request caller.old.calls }) }
    {
        match request {
            Request::Call {
                app,
                arguments,
                names,
            } => self.call(state, caller, app, arguments, names),
            Request::WaitValue(future) => Ok(self.wait(state, &future)?),
            Request::WaitName(future) => Ok(self.wait(state, &future)?),
            Request::Print(value) => {
                state.print(value)?;
                Ok(Answer::Go)
            }
            Request::Checkpoint => Ok(Answer::Go),
        }
    }

    /// The outcome of the task that a future or an output stands for.
    fn wait(&self, state: &EvalState, future: &Value) -> Result<Answer, AllocError>
        ensures { IfOk result (λ answer. answer ≡ wait_answer self.now.script.now.tree (loss_at self.now.losses.now) (settled_from 0 state.now) (path_in (out-Value future.now))) }
    {
        let known = Group { state, first: 0 };
        match future {
            Value::Future { path, .. } => outcome_answer(self.alloc, known.outcome(path)),
            Value::Output { path, .. } => outcome_answer(self.alloc, known.outcome(path)),
            _ => Ok(Answer::Go),
        }
    }

    /// The app of this number.
    fn app(&self, app: u32) -> Option<&AppDef>
        ensures { option_copied result ≡ slice_get self.now.script.now.tree.0 app }
    {
        at(self.script.script().apps(), app as usize)
    }

    /// A call is submitted, and has a task without an outcome.
    fn begin(
        &self,
        state: &mut EvalState,
        caller: &Caller,
        app: u32,
        arguments: &Items,
        names: &Names,
    ) -> Result<OpenCall, EvalFault>
        requires short { length caller.now.path.now < max_path }
        requires stands { CanCall caller.now.path.now caller.now.first caller.now.calls state.old }
        ensures { Begins self.now.script.now.tree caller.now.path.now caller.now.calls app arguments.now names.now state.old state.new result }
    {
        state.submit(arguments, names)?;
        let number = caller.calls + 1;
        let path = caller.path.child(self.alloc, number)?;
        let name = name_of(self.alloc, self.app(app))?;
        let future = future_of(self.alloc, &path, names)?;
        let copy = path.copy(self.alloc)?;
        let place = state.open(self.alloc, copy, name)?;
        Ok(OpenCall {
            path,
            place,
            future,
            number,
        })
    }

    /// A call, whose task and all below it are evaluated at once.
    #[cycle(calls)]
    fn call(
        &self,
        state: &mut EvalState,
        caller: &mut Caller,
        app: u32,
        arguments: Items,
        names: Names,
    ) -> Result<Answer, EvalFault>
        requires few { length self.now.script.now.tree.0 < 2 ^ 32 }
        requires short { length caller.old.path.now < max_path }
        requires stands { CanCall caller.old.path.now caller.old.first caller.old.calls state.old }
        ensures gives { CallGives self.now.script.now.tree (loss_at self.now.losses.now) caller.old.path.now caller.old.first caller.old.calls app arguments names state.old state.new result }
        ensures counted { OnOk result (caller.new ≡ record caller.old { calls = suc caller.old.calls }) }
    {
        let opened = self.begin(state, caller, app, &arguments, &names)?;
        let outcome = self.outcome(state, caller.first, &opened.path, app, &arguments, &names)?;
        state.settle(opened.place, outcome)?;
        caller.calls = opened.number;
        Ok(Answer::Called(opened.future))
    }

    /// The outcome of a call, with what its caller made from this place on.
    #[cycle(calls)]
    fn outcome(
        &self,
        state: &mut EvalState,
        first: usize,
        path: &Path,
        app: u32,
        arguments: &Items,
        names: &Names,
    ) -> Result<Outcome, EvalFault>
        requires few { length self.now.script.now.tree.0 < 2 ^ 32 }
        requires short { length path.now ≤ max_path }
        requires stands { CanCall path.now first 0 state.old }
        ensures { RanGives self.now.script.now.tree (loss_at self.now.losses.now) (rule_at self.now.script.now.tree (loss_at self.now.losses.now) path.now path.now app arguments.now names.now (settled_from first state.old)) state.old state.new result }
    {
        let known = Group { state, first };
        let readiness = readiness_of(self.alloc, &known, arguments.as_slice())?;
        match readiness {
            Readiness::Settles(exception) => Ok(Outcome::Failed(exception)),
            Readiness::Runs(values) => self.ran(state, path, app, values, names),
        }
    }

    /// The outcome of a call that is ready.
    #[cycle(calls)]
    fn ran(
        &self,
        state: &mut EvalState,
        path: &Path,
        app: u32,
        values: Items,
        names: &Names,
    ) -> Result<Outcome, EvalFault>
        requires few { length self.now.script.now.tree.0 < 2 ^ 32 }
        requires short { length path.now ≤ max_path }
        requires stands { CanCall path.now 0 0 state.old }
        ensures { RanGives self.now.script.now.tree (loss_at self.now.losses.now) (sequential.runs self.now.script.now.tree.0 (loss_at self.now.losses.now) (max_path - length path.now) (rule_below self.now.script.now.tree (loss_at self.now.losses.now) path.now) path.now (slice_get self.now.script.now.tree.0 app) values names.now) state.old state.new result }
    {
        match self.app(app) {
            None => Ok(Outcome::Failed(Exception::TypeError)),
            Some(found) => {
                if found.join {
                    return self.joined(state, path, app, values);
                }
                Ok(self.attempted(path, app, &values, names)?)
            }
        }
    }

    /// The outcome of the plain app of this number.
    fn attempted(
        &self,
        path: &Path,
        app: u32,
        values: &Items,
        names: &Names,
    ) -> Result<Outcome, AllocError>
        requires { IsPlainApp (slice_get self.now.script.now.tree.0 app) }
        ensures { IfOk result (λ outcome. IfSome (slice_get self.now.script.now.tree.0 app) (λ found. outcome ≡ sequential.lost_or (loss_at self.now.losses.now path.now) (sequential.outcome_of (sequential.apply found values.now names.now)))) }
    {
        match self.losses.manager(path) {
            Some(manager) => Ok(Outcome::Failed(Exception::ManagerLost(manager))),
            None => Ok(outcome_of(apply(self.alloc, self.script, app, values, names)?)),
        }
    }

    /// The outcome of a join, whose body is run with its calls where its path has room for one more number.
    #[cycle(calls)]
    fn joined(
        &self,
        state: &mut EvalState,
        path: &Path,
        app: u32,
        values: Items,
    ) -> Result<Outcome, EvalFault>
        requires few { length self.now.script.now.tree.0 < 2 ^ 32 }
        requires short { length path.now ≤ max_path }
        requires join { IsJoin (slice_get self.now.script.now.tree.0 app) }
        requires stands { CanCall path.now 0 0 state.old }
        ensures { RanGives self.now.script.now.tree (loss_at self.now.losses.now) (join_at self.now.script.now.tree (loss_at self.now.losses.now) (max_path - length path.now) path.now app values) state.old state.new result }
    {
        if path.len() >= MAX_PATH {
            return Ok(Outcome::Failed(Exception::DepthError));
        }
        let first = state.tasks.len();
        let ended = self.run_join(state, path, app, values)?;
        let known = Group { state, first };
        Ok(join_outcome(self.alloc, &known, &ended)?)
    }

    /// The body of a join with its calls.
    #[cycle(calls)]
    fn run_join(
        &self,
        state: &mut EvalState,
        path: &Path,
        app: u32,
        values: Items,
    ) -> Result<Ended, EvalFault>
        requires few { length self.now.script.now.tree.0 < 2 ^ 32 }
        requires short { length path.now < max_path }
        requires join { IsJoin (slice_get self.now.script.now.tree.0 app) }
        requires stands { CanCall path.now 0 0 state.old }
        ensures { BodyGives self.now.script.now.tree (loss_at self.now.losses.now) (body_ran self.now.script.now.tree (loss_at self.now.losses.now) path.now app values) state.old state.new result }
    {
        let mut caller = Caller {
            path,
            first: state.tasks.len(),
            calls: 0,
        };
        let mut walk = CountedWalk::join(self.alloc, self.script, app, values)?;
        let mut reply = Reply::Begin;
        'requests: loop {
            match walk.resume(self.alloc, reply)? {
                Want::Asks(request) => {
                    reply = Reply::Told(self.join_answer(state, &mut caller, request)?);
                }
                Want::Ended(ended) => return Ok(ended),
            }
        }
    }

    /// What a request of a join's body is answered.
    #[cycle(calls)]
    fn join_answer(
        &self,
        state: &mut EvalState,
        caller: &mut Caller,
        request: Request,
    ) -> Result<Answer, EvalFault>
        requires few { length self.now.script.now.tree.0 < 2 ^ 32 }
        requires short { length caller.old.path.now < max_path }
        requires stands { CanCall caller.old.path.now caller.old.first caller.old.calls state.old }
        ensures gives { JoinAnswers self.now.script.now.tree (loss_at self.now.losses.now) caller.old.path.now caller.old.first caller.old.calls request state.old state.new result }
        ensures counted { OnOk result (caller.new ≡ record caller.old { calls = calls_after self.now.script.now.tree (loss_at self.now.losses.now) request caller.old.calls }) }
    {
        match request {
            Request::Call {
                app,
                arguments,
                names,
            } => self.call(state, caller, app, arguments, names),
            _ => Ok(Answer::Go),
        }
    }
}

fn outcome_of(ended: Ended) -> Outcome
    ensures { result ≡ sequential.outcome_of ended }
{
    match ended {
        Ended::Value { value, files } => Outcome::Value { value, files },
        Ended::Raised(exception) => Outcome::Failed(exception),
    }
}

fn outcome_answer(alloc: Global, outcome: Option<&Outcome>) -> Result<Answer, AllocError>
    ensures { IfOk result (λ answer. answer ≡ sequential.outcome_answer (option_copied outcome.entry)) }
{
    match outcome {
        Some(outcome) => Ok(Answer::Outcome(outcome.copy(alloc)?)),
        None => Ok(Answer::Go),
    }
}

fn name_of(alloc: Global, app: Option<&AppDef>) -> Result<Text, AllocError>
    ensures { IfOk result (λ name. name ≡ name_in (option_copied app.entry)) }
{
    match app {
        Some(app) => app.name.copy(alloc),
        None => Ok(Text::new(alloc)),
    }
}

/// The future of a call with these names of outputs.
fn future_of(alloc: Global, path: &Path, names: &Names) -> Result<Value, AllocError>
    requires { length names.now < 2 ^ 32 }
    ensures { IfOk result (λ future. future ≡ v.Future path.now (length names.now)) }
{
    Ok(Value::Future {
        path: path.copy(alloc)?,
        outputs: names.len() as u32,
    })
}
