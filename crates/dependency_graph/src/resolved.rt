//! Arguments with values and files in place of futures and outputs.

ghost use Rattle.std.specs.Prelude.{◌≡◌, IfOk, map};
ghost use Rattle.std.specs.Option.{option_copied};
ghost use Rattle.flow_meaning.specs.Sequential as definition;
ghost use Rattle.dependency_graph.specs.Resolved.{item_resolved, argument_resolved};

use crate::outcomes::Outcomes;
use flow_base::{FileOut, Items, Outcome, Value};
use sqlite_items::at;
use std::alloc::{AllocError, Global};

/// The arguments with the values of tasks in place of their futures, and their files in place of outputs.
#[tactic(auto, unfolding(flow_meaning::specs::Sequential::resolved))]
pub fn resolve<O: Outcomes>(
    alloc: Global,
    outcomes: &O,
    arguments: &[Value],
) -> Result<Items, AllocError>
    ensures { IfOk result (λ values. values ≡ definition.resolved (O.tasks outcomes.now) arguments.now) }
{
    let mut values = Items::new(alloc);
    for argument in arguments {
        values.push(resolve_argument(alloc, outcomes, argument)?)?;
    }
    Ok(values)
}

fn resolve_argument<O: Outcomes>(
    alloc: Global,
    outcomes: &O,
    argument: &Value,
) -> Result<Value, AllocError>
    ensures { IfOk result (λ value. value ≡ argument_resolved (O.tasks outcomes.now) argument.now) }
{
    match argument {
        Value::List(items) => Ok(Value::List(resolve_items(alloc, outcomes, items.as_slice())?)),
        _ => resolve_item(alloc, outcomes, argument),
    }
}

fn resolve_items<O: Outcomes>(
    alloc: Global,
    outcomes: &O,
    items: &[Value],
) -> Result<Items, AllocError>
    ensures { IfOk result (λ values. values ≡ map (item_resolved (O.tasks outcomes.now)) items.now) }
{
    let mut values = Items::new(alloc);
    for item in items {
        values.push(resolve_item(alloc, outcomes, item)?)?;
    }
    Ok(values)
}

fn resolve_item<O: Outcomes>(alloc: Global, outcomes: &O, item: &Value) -> Result<Value, AllocError>
    ensures { IfOk result (λ value. value ≡ item_resolved (O.tasks outcomes.now) item.now) }
{
    match item {
        Value::Future { path, .. } => value_in(alloc, outcomes.outcome(path)),
        Value::Output { path, index } => file_in(alloc, outcomes.outcome(path), *index),
        _ => item.copy(alloc),
    }
}

fn value_in(alloc: Global, outcome: Option<&Outcome>) -> Result<Value, AllocError>
    ensures { IfOk result (λ value. value ≡ definition.value_in (option_copied outcome.entry)) }
{
    match outcome {
        Some(Outcome::Value { value, .. }) => value.copy(alloc),
        _ => Ok(Value::Nothing),
    }
}

fn file_in(alloc: Global, outcome: Option<&Outcome>, index: u32) -> Result<Value, AllocError>
    ensures { IfOk result (λ value. value ≡ definition.file_in (option_copied outcome.entry) index) }
{
    match outcome {
        Some(Outcome::Value { files, .. }) => {
            file_value(alloc, at(files.as_slice(), index as usize))
        }
        _ => Ok(Value::Nothing),
    }
}

fn file_value(alloc: Global, file: Option<&FileOut>) -> Result<Value, AllocError>
    ensures { IfOk result (λ value. value ≡ definition.file_value (option_copied file.entry)) }
{
    match file {
        Some(file) => Ok(Value::File {
            name: file.name.copy(alloc)?,
            content: file.content.copy(alloc)?,
        }),
        None => Ok(Value::Nothing),
    }
}
