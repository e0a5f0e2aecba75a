//! The built-ins that ask: what a future or an output has, once its task has ended.

ghost use Rattle.std.specs.Prelude.{◌∷◌, [], ◌≡◌, slice_get, IfOk};
ghost use Rattle.app_eval.specs.Gives.{Gives, GivesRun, Tells};
ghost use Rattle.app_eval.specs.Waits.{value_asked, name_asked};
ghost use Rattle.flow_base.specs.declared.value.Value.{out-Value};
ghost use Rattle.flow_meaning.specs.Meaning as m;
ghost use Rattle.flow_meaning.specs.Run.{run};
ghost use Rattle.flow_meaning.specs.Told as meaning;

use crate::answers::Answers;
use crate::operators::{Failure, Stop};
use flow_base::{Exception, FileOut, Outcome, Text, Value};
use flow_meaning::{Answer, Request};
use script_tree::tree::BuiltIn;
use sqlite_items::at;
use std::alloc::{AllocError, Global};

/// The value of a future, or the file of an output; or the exception of its task.
#[tactic(auto, unfolding(flow_meaning::specs::Told::result_of))]
pub fn result(alloc: Global, future: &Value, answers: &mut Answers) -> Result<Value, Stop>
    ensures { GivesRun result answers.new.left.now (run (m.applied_to BuiltIn.Result (future.now ∷ [])) answers.old.left.now) }
{
    match future {
        Value::Future { .. } => wait_for_value(alloc, future, answers),
        Value::Output { .. } => wait_for_value(alloc, future, answers),
        _ => Err(Stop::Raised(Exception::TypeError)),
    }
}

/// The name of the exception of a task, or the empty text where it has a value.
#[tactic(auto, unfolding(flow_meaning::specs::Told::exception_of))]
pub fn exception(alloc: Global, future: &Value, answers: &mut Answers) -> Result<Value, Stop>
    ensures { GivesRun result answers.new.left.now (run (m.applied_to BuiltIn.Exception (future.now ∷ [])) answers.old.left.now) }
{
    match future {
        Value::Future { .. } => wait_for_name(alloc, future, answers),
        Value::Output { .. } => wait_for_name(alloc, future, answers),
        _ => Err(Stop::Raised(Exception::TypeError)),
    }
}

fn wait_for_value(alloc: Global, future: &Value, answers: &mut Answers) -> Result<Value, Stop>
    ensures { GivesRun result answers.new.left.now (run (value_asked future.now) answers.old.left.now) }
{
    match answers.next() {
        None => Err(Stop::Asks(Request::WaitValue(future.copy(alloc)?))),
        Some(answer) => match answer {
            Answer::Outcome(outcome) => Ok(told_value(alloc, future, outcome)?),
            _ => Err(Stop::Raised(Exception::TypeError)),
        },
    }
}

fn told_value(alloc: Global, future: &Value, outcome: &Outcome) -> Result<Value, Failure>
    ensures { Tells result (meaning.told_value (out-Value future.now) outcome.now) }
{
    match outcome {
        Outcome::Value { value, files } => match future {
            Value::Output { index, .. } => file_at(alloc, files.as_slice(), *index as usize),
            _ => Ok(value.copy(alloc)?),
        },
        Outcome::Failed(exception) => Err(Failure::Raised(exception.copy(alloc)?)),
    }
}

fn file_at(alloc: Global, files: &[FileOut], index: usize) -> Result<Value, Failure>
    ensures { Gives result (meaning.as_file (slice_get files.now index)) }
{
    match at(files, index) {
        Some(file) => Ok(Value::File {
            name: file.name.copy(alloc)?,
            content: file.content.copy(alloc)?,
        }),
        None => Err(Failure::Raised(Exception::IndexError)),
    }
}

fn wait_for_name(alloc: Global, future: &Value, answers: &mut Answers) -> Result<Value, Stop>
    ensures { GivesRun result answers.new.left.now (run (name_asked future.now) answers.old.left.now) }
{
    match answers.next() {
        None => Err(Stop::Asks(Request::WaitName(future.copy(alloc)?))),
        Some(answer) => match answer {
            Answer::Outcome(outcome) => Ok(Value::Text(told_name(alloc, outcome)?)),
            _ => Err(Stop::Raised(Exception::TypeError)),
        },
    }
}

fn told_name(alloc: Global, outcome: &Outcome) -> Result<Text, AllocError>
    ensures { IfOk result (λ name. name ≡ meaning.told_name outcome.now) }
{
    match outcome {
        Outcome::Value { .. } => Ok(Text::new(alloc)),
        Outcome::Failed(exception) => Text::of(alloc, exception.name()),
    }
}
