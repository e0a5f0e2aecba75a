//! The outcome of a join, by those of the futures that its body gave.

ghost use Rattle.std.specs.Prelude.{◌≡◌, IfOk};
ghost use Rattle.std.specs.List.{list_all};
ghost use Rattle.std.specs.Option.{option_copied};
ghost use Rattle.flow_base.specs.declared.value.Value.{out-Value};
ghost use Rattle.flow_base.specs.declared.value.Value.TheVariants as v;
ghost use Rattle.flow_meaning.specs.Inputs.{distinct, inputs};
ghost use Rattle.flow_meaning.specs.Sequential as sequential;
ghost use Rattle.call_rules.specs.Calls as definition;
ghost use Rattle.call_rules.specs.Calls.{awaited, paths_or_none};
ghost use Rattle.join_apps.specs.Bodies.{result_of};
ghost use Rattle.join_apps.specs.Futures as futures;

use dependency_graph::{Outcomes, inputs_of, resolve};
use flow_base::{Ended, Exception, Files, Outcome, Path, Paths, Value};
use std::alloc::{AllocError, Global};

/// The outcome of a join whose body ended so, once the tasks of the futures that it gave are settled: the
/// value of a future, the values of a list of futures, JoinError where some of them failed, SizeError where
/// the list is too large, or the exception of the body. TypeError where it gave anything else.
#[tactic(auto, unfolding(flow_meaning::specs::Sequential::join_outcome))]
pub fn join_outcome<O: Outcomes>(
    alloc: Global,
    outcomes: &O,
    ended: &Ended,
) -> Result<Outcome, AllocError>
    ensures { IfOk result (λ outcome. outcome ≡ sequential.join_outcome (O.tasks outcomes.now) (result_of ended.now)) }
{
    match ended {
        Ended::Value { value, .. } => value_outcome(alloc, outcomes, value),
        Ended::Raised(exception) => Ok(Outcome::Failed(exception.copy(alloc)?)),
    }
}

/// The tasks that a join waits for whose body ended so, each once: that of the future that it gave, or those of the
/// list of futures that it gave. Where it gave anything else, or raised an exception, there are none.
pub fn awaited_of(alloc: Global, ended: &Ended) -> Result<Paths, AllocError>
    ensures { IfOk result (λ paths. paths ≡ distinct (awaited (result_of ended.now))) }
{
    match ended {
        Ended::Value { value, .. } => awaited_in(alloc, value),
        Ended::Raised(_) => Ok(Paths::new(alloc)),
    }
}

fn awaited_in(alloc: Global, value: &Value) -> Result<Paths, AllocError>
    ensures { IfOk result (λ paths. paths ≡ distinct (definition.awaited_in (out-Value value.now))) }
{
    match value {
        Value::Future { path, .. } => {
            let mut paths = Paths::new(alloc);
            paths.push(path.copy(alloc)?)?;
            Ok(paths)
        }
        Value::List(items) => awaited_among(alloc, items.as_slice()),
        _ => Ok(Paths::new(alloc)),
    }
}

// A list that holds anything but futures isn't waited for.
#[tactic(auto, using(crate::proofs::Futures::all_awaited, crate::proofs::Futures::none_awaited))]
fn awaited_among(alloc: Global, items: &[Value]) -> Result<Paths, AllocError>
    ensures { IfOk result (λ paths. paths ≡ distinct (paths_or_none (sequential.futures_in items.now))) }
{
    if !are_futures(items) {
        return Ok(Paths::new(alloc));
    }
    inputs_of(alloc, items)
}

fn value_outcome<O: Outcomes>(
    alloc: Global,
    outcomes: &O,
    value: &Value,
) -> Result<Outcome, AllocError>
    ensures { IfOk result (λ outcome. outcome ≡ sequential.join_value (O.tasks outcomes.now) (out-Value value.now)) }
{
    match value {
        Value::Future { path, .. } => one_outcome(alloc, outcomes, path),
        Value::List(items) => all_outcome(alloc, outcomes, items.as_slice()),
        _ => Ok(Outcome::Failed(Exception::TypeError)),
    }
}

/// By the outcome of one future.
fn one_outcome<O: Outcomes>(alloc: Global, outcomes: &O, path: &Path) -> Result<Outcome, AllocError>
    ensures { IfOk result (λ outcome. outcome ≡ sequential.one_value (O.tasks outcomes.now) path.now) }
{
    let outcome = outcomes.outcome(path);
    if has_failed(outcome) {
        let mut failed = Paths::new(alloc);
        failed.push(path.copy(alloc)?)?;
        return Ok(Outcome::Failed(Exception::JoinError(failed)));
    }
    Ok(Outcome::Value {
        value: value_in(alloc, outcome)?,
        files: Files::new(alloc),
    })
}

/// By the outcomes of a list of futures.
#[tactic(auto, using(crate::proofs::Futures::all_joined, crate::proofs::Futures::not_all))]
fn all_outcome<O: Outcomes>(
    alloc: Global,
    outcomes: &O,
    items: &[Value],
) -> Result<Outcome, AllocError>
    ensures { IfOk result (λ outcome. outcome ≡ sequential.all_values (O.tasks outcomes.now) (sequential.futures_in items.now)) }
{
    if !are_futures(items) {
        return Ok(Outcome::Failed(Exception::TypeError));
    }
    joined(alloc, outcomes, items)
}

/// The values of futures in a list, unless some of them failed.
fn joined<O: Outcomes>(alloc: Global, outcomes: &O, items: &[Value]) -> Result<Outcome, AllocError>
    ensures { IfOk result (λ outcome. outcome ≡ sequential.unless_failed (sequential.failed_among (O.tasks outcomes.now) (inputs items.now)) (sequential.limited_outcome (v.List (sequential.resolved (O.tasks outcomes.now) items.now)))) }
{
    let inputs = inputs_of(alloc, items)?;
    let failed = failed_among(alloc, outcomes, inputs.as_slice())?;
    if !failed.is_empty() {
        return Ok(Outcome::Failed(Exception::JoinError(failed)));
    }
    let values = resolve(alloc, outcomes, items)?;
    Ok(limited_outcome(alloc, Value::List(values)))
}

fn limited_outcome(alloc: Global, value: Value) -> Outcome
    ensures { result ≡ sequential.limited_outcome value }
{
    if value.fits() {
        Outcome::Value {
            value,
            files: Files::new(alloc),
        }
    } else {
        Outcome::Failed(Exception::SizeError)
    }
}

fn failed_among<O: Outcomes>(
    alloc: Global,
    outcomes: &O,
    paths: &[Path],
) -> Result<Paths, AllocError>
    ensures { IfOk result (λ failed. failed ≡ sequential.failed_among (O.tasks outcomes.now) paths.now) }
{
    let mut failed = Paths::new(alloc);
    for path in paths {
        if has_failed(outcomes.outcome(path)) {
            failed.push(path.copy(alloc)?)?;
        }
    }
    Ok(failed)
}

fn has_failed(outcome: Option<&Outcome>) -> bool
    ensures { result ≡ sequential.failed (option_copied outcome.entry) }
{
    matches!(outcome, Some(Outcome::Failed(_)))
}

fn value_in(alloc: Global, outcome: Option<&Outcome>) -> Result<Value, AllocError>
    ensures { IfOk result (λ value. value ≡ sequential.value_in (option_copied outcome.entry)) }
{
    match outcome {
        Some(Outcome::Value { value, .. }) => value.copy(alloc),
        _ => Ok(Value::Nothing),
    }
}

fn are_futures(items: &[Value]) -> bool
    ensures { result ≡ list_all futures.is_future items.now }
{
    for item in items {
        if !is_future(item) {
            return false;
        }
    }
    true
}

fn is_future(item: &Value) -> bool
    ensures { result ≡ futures.is_future item.now }
{
    matches!(item, Value::Future { .. })
}
