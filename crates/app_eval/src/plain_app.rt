//! What a plain app gives.

ghost use Rattle.std.specs.Prelude.{◌≡◌, slice_get, IfOk, IfSome};
ghost use Rattle.std.specs.Arc.{arc_value};
ghost use Rattle.flow_meaning.specs.Sequential as sequential;
ghost use Rattle.body_program.specs.Meaning as code;
ghost use Rattle.compiled_script.specs.Programs.{IsPlainApp};
ghost use Rattle.app_eval.specs.Runnings.{ended_in};

use crate::running::{Running, Want};
use body_program::Program;
use compiled_script::CompiledScript;
use flow_base::{Ended, Exception, Items, Names};
use std::alloc::{AllocError, Global};
use std::sync::Arc;

/// The meaning of the plain app of this number: its body with these arguments, which writes outputs of these
/// names. A call or a wait in it is a TypeError.
#[tactic(auto, using(crate::proofs::Scripts::plain_below))]
pub fn apply(
    alloc: Global,
    script: &CompiledScript,
    app: u32,
    arguments: &Items,
    names: &Names,
) -> Result<Ended, AllocError>
    requires { IsPlainApp (slice_get script.now.tree.0 app) }
    ensures { IfOk result (λ ended. IfSome (slice_get script.now.tree.0 app) (λ found. ended ≡ sequential.apply found arguments.now names.now)) }
{
    end_alone(alloc, script.body(app).clone()?, arguments, names)
}

/// How a body ends with these arguments, where it writes outputs of these names and nothing answers it: what
/// it asks for is a TypeError.
pub fn end_alone(
    alloc: Global,
    program: Arc<Program>,
    arguments: &Items,
    names: &Names,
) -> Result<Ended, AllocError>
    ensures { IfOk result (λ ended. ended ≡ sequential.end_of (code.program_act (arc_value program) arguments.now names.now)) }
{
    let names = names.as_slice();
    let mut running = Running::begin(alloc, program, arguments.as_slice(), names)?;
    Ok(end_by(running.advance(alloc, names)?))
}

/// A plain app that wants something raises a TypeError.
fn end_by(want: Want) -> Ended
    ensures { result ≡ ended_in want }
{
    match want {
        Want::Ended(ended) => ended,
        Want::Asks(_) => Ended::Raised(Exception::TypeError),
    }
}
