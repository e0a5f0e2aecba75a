//! The body of a join, run without the outcomes of its calls.

ghost use Rattle.std.specs.Prelude.{◌≡◌, ◌<◌, ◌^◌, length, slice_get, IfOk};
ghost use Rattle.flow_base.specs.declared.value.Value.TheVariants as v;
ghost use Rattle.flow_base.specs.Paths.{max_path};
ghost use Rattle.compiled_script.specs.Programs.{IsJoin};
ghost use Rattle.join_apps.specs.Bodies.{RunsBody};
ghost use Rattle.join_apps.specs.Making.{Answers, IsShortCall, Makes};

use app_eval::{Reply, Walker, Want};
use body_requests::asked::bodies_ask_well;
use compiled_script::CompiledScript;
use flow_base::{Ended, Items, Names, Path, Value};
use flow_meaning::{Answer, Request};
use std::alloc::{AllocError, Global};
use stored_units::MAX_TASKS;

/// A call that a join's body made.
#[derive(Drop)]
pub struct JoinCall {
    /// Its path.
    pub path: Path,
    /// The number of its app.
    pub app: u32,
    /// Its arguments.
    pub arguments: Items,
    /// The names of its outputs.
    pub names: Names,
}

/// Calls in the order in which they were made.
pub type Calls = Vec<JoinCall>;

/// The calls of a join's body, and how it ended.
#[derive(Drop)]
pub struct JoinBody {
    pub calls: Calls,
    pub ended: Ended,
}

/// Why the calls of a join's body aren't known.
#[derive(Clone, Copy, Debug, PartialEq, Eq)]
pub enum BodyFault {
    /// They are more than a run may have.
    TooMany,
    /// An allocation was refused.
    NoMemory,
}

impl From<AllocError> for BodyFault {
    ghost use Rattle.std.specs.Prelude.{◌≡◌};
    ghost use Rattle.join_apps.specs.declared.body.BodyFault.TheVariants.{NoMemory};

    ghost from_gives = { λ _ fault. fault ≡ NoMemory };

    fn from(_: AllocError) -> BodyFault {
        BodyFault::NoMemory
    }
}

/// The calls that the join of this number makes on these arguments, as the task of this path, and how its
/// body ends.
pub fn run_body(
    alloc: Global,
    script: &CompiledScript,
    app: u32,
    arguments: Items,
    path: &Path,
) -> Result<JoinBody, BodyFault>
    requires few { length script.now.tree.0 < 2 ^ 32 }
    requires app { IsJoin (slice_get script.now.tree.0 app) }
    requires short { length path.now < max_path }
    ensures { RunsBody script.now.tree path.now (slice_get script.now.tree.0 app) arguments result }
{
    let _script = script.script();
    bodies_ask_well();
    let mut walker = Walker::body(alloc, script, app, arguments)?;
    let mut calls = Calls::new(alloc);
    let mut reply = Reply::Begin;
    'requests: loop {
        match walker.resume(alloc, reply)? {
            Want::Asks(request) => {
                reply = Reply::Told(answer(alloc, path, &mut calls, request)?);
            }
            Want::Ended(ended) => return Ok(JoinBody { calls, ended }),
        }
    }
}

/// What a request of a join's body is answered, which is a call.
fn answer(
    alloc: Global,
    path: &Path,
    calls: &mut Calls,
    request: Request,
) -> Result<Answer, BodyFault>
    requires short { length path.now < max_path }
    requires call { IsShortCall request }
    ensures { Answers path.now request calls.old.items calls.new.items result }
{
    match request {
        Request::Call {
            app,
            arguments,
            names,
        } => call(alloc, path, calls, app, arguments, names),
        Request::WaitValue(_) => unreachable!(),
        Request::WaitName(_) => unreachable!(),
        Request::Print(_) => unreachable!(),
        Request::Checkpoint => unreachable!(),
    }
}

/// One more call.
fn call(
    alloc: Global,
    path: &Path,
    calls: &mut Calls,
    app: u32,
    arguments: Items,
    names: Names,
) -> Result<Answer, BodyFault>
    requires short { length path.now < max_path }
    requires names { length names < 2 ^ 32 }
    ensures { Makes path.now app arguments names calls.old.items calls.new.items result }
{
    if calls.len() >= MAX_TASKS {
        return Err(BodyFault::TooMany);
    }
    let child = path.child(alloc, calls.len() as u32 + 1)?;
    let future = future_of(alloc, &child, &names)?;
    calls.reserve(1)?;
    calls.push_reserved(JoinCall {
        path: child,
        app,
        arguments,
        names,
    });
    Ok(Answer::Called(future))
}

/// The future of a call.
fn future_of(alloc: Global, path: &Path, names: &Names) -> Result<Value, AllocError>
    requires { length names.now < 2 ^ 32 }
    ensures { IfOk result (λ future. future ≡ v.Future path.now (length names.now)) }
{
    Ok(Value::Future {
        path: path.copy(alloc)?,
        outputs: names.len() as u32,
    })
}
