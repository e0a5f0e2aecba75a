//! Whether values are what arguments come to.

ghost use Rattle.std.specs.Prelude.{◌≡◌, ◌↔◌, IsTrue, map};
ghost use Rattle.std.specs.Option.{option_copied};
ghost use Rattle.flow_base.specs.Values.{all_match, same};
ghost use Rattle.flow_meaning.specs.Sequential as definition;
ghost use Rattle.dependency_graph.specs.Resolved.{item_resolved, argument_resolved};

use crate::outcomes::Outcomes;
use flow_base::{FileOut, Outcome, Value};
use sqlite_items::at;

/// Whether the values are those that the arguments resolve to.
#[tactic(auto, using(crate::proofs::Matches::resolved_rules))]
pub fn is_resolved<O: Outcomes>(outcomes: &O, arguments: &[Value], values: &[Value]) -> bool
    ensures { IsTrue result ↔ (definition.resolved (O.tasks outcomes.now) arguments.now ≡ values.now) }
{
    arguments_match(outcomes, arguments, values)
}

fn arguments_match<O: Outcomes>(outcomes: &O, arguments: &[Value], values: &[Value]) -> bool
    ensures { result ≡ all_match (map same (map (argument_resolved (O.tasks outcomes.now)) arguments.now)) values.now }
{
    if arguments.len() != values.len() {
        return false;
    }
    for i in 0..arguments.len() {
        if !argument_matches(outcomes, &arguments[i], &values[i]) {
            return false;
        }
    }
    true
}

#[tactic(auto, unfolding(flow_base::specs::Values::same))]
fn argument_matches<O: Outcomes>(outcomes: &O, argument: &Value, value: &Value) -> bool
    ensures { result ≡ same (argument_resolved (O.tasks outcomes.now) argument.now) value.now }
{
    match argument {
        Value::List(items) => match value {
            Value::List(values) => items_match(outcomes, items.as_slice(), values.as_slice()),
            _ => false,
        },
        _ => item_matches(outcomes, argument, value),
    }
}

fn items_match<O: Outcomes>(outcomes: &O, items: &[Value], values: &[Value]) -> bool
    ensures { result ≡ all_match (map same (map (item_resolved (O.tasks outcomes.now)) items.now)) values.now }
{
    if items.len() != values.len() {
        return false;
    }
    for i in 0..items.len() {
        if !item_matches(outcomes, &items[i], &values[i]) {
            return false;
        }
    }
    true
}

fn item_matches<O: Outcomes>(outcomes: &O, item: &Value, value: &Value) -> bool
    ensures { result ≡ same (item_resolved (O.tasks outcomes.now) item.now) value.now }
{
    match item {
        Value::Future { path, .. } => value_matches(outcomes.outcome(path), value),
        Value::Output { path, index } => output_matches(outcomes.outcome(path), *index, value),
        _ => item.same(value),
    }
}

fn value_matches(outcome: Option<&Outcome>, value: &Value) -> bool
    ensures { result ≡ same (definition.value_in (option_copied outcome.entry)) value.now }
{
    match outcome {
        Some(Outcome::Value { value: given, .. }) => given.same(value),
        _ => is_nothing(value),
    }
}

fn output_matches(outcome: Option<&Outcome>, index: u32, value: &Value) -> bool
    ensures { result ≡ same (definition.file_in (option_copied outcome.entry) index) value.now }
{
    match outcome {
        Some(Outcome::Value { files, .. }) => {
            file_matches(at(files.as_slice(), index as usize), value)
        }
        _ => is_nothing(value),
    }
}

#[tactic(auto, unfolding(flow_base::specs::Values::same))]
fn file_matches(file: Option<&FileOut>, value: &Value) -> bool
    ensures { result ≡ same (definition.file_value (option_copied file.entry)) value.now }
{
    match file {
        Some(file) => match value {
            Value::File { name, content } => file.name.same(name) && file.content.same(content),
            _ => false,
        },
        None => is_nothing(value),
    }
}

#[tactic(auto, unfolding(flow_base::specs::Values::same))]
fn is_nothing(value: &Value) -> bool
    ensures { result ≡ same Value.Nothing value.now }
{
    matches!(value, Value::Nothing)
}
