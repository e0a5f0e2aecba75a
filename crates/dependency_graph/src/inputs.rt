//! The tasks that a call waits for.

ghost use Rattle.std.specs.Prelude.{◌≡◌, IfOk, OnOk};
ghost use Rattle.flow_base.specs.declared.value.Value.{out-Value};
ghost use Rattle.flow_meaning.specs.Inputs.{inputs, path_in, paths_in};
ghost use Rattle.dependency_graph.specs.Added.{added_all};

use crate::distinct_paths::DistinctPaths;
use flow_base::{Paths, Value};
use std::alloc::{AllocError, Global};

/// The paths of the futures and outputs that stand directly in the arguments or in a list argument,
/// distinct, in order of first appearance.
#[tactic(auto, using(crate::proofs::Distinct::inputs_added))]
pub fn inputs_of(alloc: Global, arguments: &[Value]) -> Result<Paths, AllocError>
    ensures { IfOk result (λ paths. paths ≡ inputs arguments.now) }
{
    let mut paths = DistinctPaths::new(alloc);
    for argument in arguments {
        add_argument(alloc, &mut paths, argument)?;
    }
    Ok(paths.into_paths())
}

fn add_argument(
    alloc: Global,
    paths: &mut DistinctPaths,
    argument: &Value,
) -> Result<(), AllocError>
    ensures { OnOk result (paths.new ≡ added_all paths.old (paths_in (out-Value argument.now))) }
{
    match argument {
        Value::List(items) => {
            for item in items.as_slice() {
                add_item(alloc, paths, item)?;
            }
            Ok(())
        }
        _ => add_item(alloc, paths, argument),
    }
}

fn add_item(alloc: Global, paths: &mut DistinctPaths, item: &Value) -> Result<(), AllocError>
    ensures { OnOk result (paths.new ≡ added_all paths.old (path_in (out-Value item.now))) }
{
    match item {
        Value::Future { path, .. } => paths.add(alloc, path),
        Value::Output { path, .. } => paths.add(alloc, path),
        _ => Ok(()),
    }
}
