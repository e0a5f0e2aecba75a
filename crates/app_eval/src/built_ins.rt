//! The built-ins of one, two and three values.

ghost use Rattle.std.specs.Prelude.{◌∷◌, []};
ghost use Rattle.app_eval.specs.Gives.{Gives, GivesRun};
ghost use Rattle.flow_meaning.specs.Run.{run};
ghost use Rattle.flow_meaning.specs.Meaning as m;

use crate::answers::Answers;
use crate::operators::{Failure, Stop};
use crate::{files, lists, numbers, texts, waits};
use flow_base::{Exception, Value};
use script_tree::tree::BuiltIn;
use std::alloc::Global;

/// What a built-in gives of one value.
#[tactic(auto, using(crate::proofs::GivenRuns::fails_run))]
pub fn one(
    alloc: Global,
    built_in: BuiltIn,
    value: &Value,
    answers: &mut Answers,
) -> Result<Value, Stop>
    ensures { GivesRun result answers.new.left.now (run (m.applied_to built_in (value.now ∷ [])) answers.old.left.now) }
{
    match built_in {
        BuiltIn::Len => Ok(lists::len(value)?),
        BuiltIn::Text => Ok(numbers::text(alloc, value)?),
        BuiltIn::Number => Ok(numbers::number(value)?),
        BuiltIn::Name => Ok(files::name(alloc, value)?),
        BuiltIn::Content => Ok(files::content(alloc, value)?),
        BuiltIn::Result => waits::result(alloc, value, answers),
        BuiltIn::Exception => waits::exception(alloc, value, answers),
        BuiltIn::Slice
        | BuiltIn::Range
        | BuiltIn::Append
        | BuiltIn::Split
        | BuiltIn::Concat
        | BuiltIn::File
        | BuiltIn::Output => Err(Stop::Raised(Exception::TypeError)),
    }
}

/// What a built-in gives of two values.
pub fn two(
    alloc: Global,
    built_in: BuiltIn,
    first: &Value,
    second: &Value,
) -> Result<Value, Failure>
    ensures { Gives result (m.applied_to built_in (first.now ∷ second.now ∷ [])) }
{
    match built_in {
        BuiltIn::Range => lists::range(alloc, first, second),
        BuiltIn::Append => lists::append(alloc, first, second),
        BuiltIn::Split => texts::split(alloc, first, second),
        BuiltIn::Concat => texts::concat(alloc, first, second),
        BuiltIn::File => files::file(alloc, first, second),
        BuiltIn::Output => files::output(alloc, first, second),
        BuiltIn::Len
        | BuiltIn::Text
        | BuiltIn::Number
        | BuiltIn::Slice
        | BuiltIn::Name
        | BuiltIn::Content
        | BuiltIn::Result
        | BuiltIn::Exception => Err(Failure::Raised(Exception::TypeError)),
    }
}

/// What a built-in gives of three values.
pub fn three(
    alloc: Global,
    built_in: BuiltIn,
    first: &Value,
    second: &Value,
    third: &Value,
) -> Result<Value, Failure>
    ensures { Gives result (m.applied_to built_in (first.now ∷ second.now ∷ third.now ∷ [])) }
{
    match built_in {
        BuiltIn::Slice => lists::slice(alloc, first, second, third),
        BuiltIn::Len
        | BuiltIn::Text
        | BuiltIn::Number
        | BuiltIn::Range
        | BuiltIn::Append
        | BuiltIn::Split
        | BuiltIn::Concat
        | BuiltIn::File
        | BuiltIn::Name
        | BuiltIn::Content
        | BuiltIn::Output
        | BuiltIn::Result
        | BuiltIn::Exception => Err(Failure::Raised(Exception::TypeError)),
    }
}
