//! The rules that settle a call before its first attempt.

ghost use Rattle.std.specs.Prelude.{◌≡◌, [], ◌∷◌, IfOk, OnOk, flat_map};
ghost use Rattle.std.specs.List.{list_all};
ghost use Rattle.std.specs.Option.{option_copied};
ghost use Rattle.flow_base.specs.Values.{fits};
ghost use Rattle.flow_base.specs.declared.value.Value.{out-Value};
ghost use Rattle.flow_meaning.specs.Inputs.{inputs, path_in, paths_in};
ghost use Rattle.flow_meaning.specs.Sequential.{failed, failed_among};
ghost use Rattle.dependency_graph.specs.Added.{added_all};
ghost use Rattle.dependency_graph.specs.Readiness.{ready};

use crate::deep::are_deep;
use crate::distinct_paths::DistinctPaths;
use crate::outcomes::Outcomes;
use crate::resolved::resolve;
use flow_base::{Exception, Items, Outcome, Path, Paths, Value};
use std::alloc::{AllocError, Global};

/// What the first three rules say of a call whose inputs are settled.
#[derive(Drop)]
pub enum Readiness {
    /// It fails without an attempt.
    Settles(Exception),
    /// It runs with these arguments.
    Runs(Items),
}

/// What becomes of a call: TypeError where a future stands too deep, DependencyError where an input
/// failed, SizeError where an argument is too large, or else its arguments.
#[tactic(auto, unfolding(crate::specs::Readiness::ready))]
pub fn readiness_of<O: Outcomes>(
    alloc: Global,
    outcomes: &O,
    arguments: &[Value],
) -> Result<Readiness, AllocError>
    ensures { IfOk result (λ r. r ≡ ready (O.tasks outcomes.now) arguments.now) }
{
    if are_deep(arguments) {
        return Ok(Readiness::Settles(Exception::TypeError));
    }
    let failed = failed_inputs(alloc, outcomes, arguments)?;
    if !failed.is_empty() {
        return Ok(Readiness::Settles(Exception::DependencyError(failed)));
    }
    let values = resolve(alloc, outcomes, arguments)?;
    if all_fit(values.as_slice()) {
        Ok(Readiness::Runs(values))
    } else {
        Ok(Readiness::Settles(Exception::SizeError))
    }
}

// The inputs that failed, each once.
fn failed_inputs<O: Outcomes>(
    alloc: Global,
    outcomes: &O,
    arguments: &[Value],
) -> Result<Paths, AllocError>
    ensures { IfOk result (λ paths. paths ≡ failed_among (O.tasks outcomes.now) (inputs arguments.now)) }
{
    let mut failed = DistinctPaths::new(alloc);
    for argument in arguments {
        add_failed(alloc, outcomes, &mut failed, argument)?;
    }
    Ok(failed.into_paths())
}

fn add_failed<O: Outcomes>(
    alloc: Global,
    outcomes: &O,
    failed: &mut DistinctPaths,
    argument: &Value,
) -> Result<(), AllocError>
    ensures { OnOk result (failed.new ≡ added_all failed.old (failed_among (O.tasks outcomes.now) (paths_in (out-Value argument.now)))) }
{
    match argument {
        Value::List(items) => add_failed_items(alloc, outcomes, failed, items.as_slice()),
        _ => add_failed_item(alloc, outcomes, failed, argument),
    }
}

fn add_failed_items<O: Outcomes>(
    alloc: Global,
    outcomes: &O,
    failed: &mut DistinctPaths,
    items: &[Value],
) -> Result<(), AllocError>
    ensures { OnOk result (failed.new ≡ added_all failed.old (failed_among (O.tasks outcomes.now) (flat_map (λ v. path_in (out-Value v)) items.now))) }
{
    for item in items {
        add_failed_item(alloc, outcomes, failed, item)?;
    }
    Ok(())
}

fn add_failed_item<O: Outcomes>(
    alloc: Global,
    outcomes: &O,
    failed: &mut DistinctPaths,
    item: &Value,
) -> Result<(), AllocError>
    ensures { OnOk result (failed.new ≡ added_all failed.old (failed_among (O.tasks outcomes.now) (path_in (out-Value item.now)))) }
{
    match item {
        Value::Future { path, .. } => add_if_failed(alloc, outcomes, failed, path),
        Value::Output { path, .. } => add_if_failed(alloc, outcomes, failed, path),
        _ => Ok(()),
    }
}

fn add_if_failed<O: Outcomes>(
    alloc: Global,
    outcomes: &O,
    failed: &mut DistinctPaths,
    path: &Path,
) -> Result<(), AllocError>
    ensures { OnOk result (failed.new ≡ added_all failed.old (failed_among (O.tasks outcomes.now) (path.now ∷ []))) }
{
    if has_failed(outcomes.outcome(path)) {
        return failed.add(alloc, path);
    }
    Ok(())
}

fn has_failed(outcome: Option<&Outcome>) -> bool
    ensures { result ≡ failed (option_copied outcome.entry) }
{
    matches!(outcome, Some(Outcome::Failed(_)))
}

fn all_fit(values: &[Value]) -> bool
    ensures { result ≡ list_all fits values.now }
{
    values.iter().all(|value| value.fits())
}
