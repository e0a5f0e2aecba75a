//! The built-ins on lists, and those that take a text or a list.

ghost use Rattle.std.specs.Prelude.{◌∷◌, [], ◌≡◌, ◌-◌, ◌≤◌, ◌-ℤ◌, length, take, drop, IfOk};
ghost use Rattle.app_eval.specs.Gives.{Answers, Gives};
ghost use Rattle.flow_base.specs.declared.value.Value.TheOpen.{Value-F};
ghost use Rattle.flow_base.specs.declared.value.Value.{out-Value};
ghost use Rattle.flow_meaning.specs.Meaning as m;
ghost use Rattle.flow_meaning.specs.Operators as meaning;

use crate::indexing::ends_in;
use crate::limits::{can_grow, units_fit};
use crate::operators::{Failure, copies};
use flow_base::{Exception, Items, Text, Value};
use script_tree::tree::BuiltIn;
use sqlite_items::Items as ListOf;
use std::alloc::{AllocError, Global};

/// The bytes of a text, or the items of a list.
pub fn len(value: &Value) -> Result<Value, Exception>
    ensures { Answers result (m.applied_to BuiltIn.Len (value.now ∷ [])) }
{
    match value {
        Value::Text(text) => Ok(Value::Int(text.as_slice().len() as i64)),
        Value::List(items) => Ok(Value::Int(items.as_slice().len() as i64)),
        _ => Err(Exception::TypeError),
    }
}

/// The items or the bytes from one place up to below another.
pub fn slice(alloc: Global, value: &Value, from: &Value, to: &Value) -> Result<Value, Failure>
    ensures { Gives result (m.applied_to BuiltIn.Slice (value.now ∷ from.now ∷ to.now ∷ [])) }
{
    match value {
        Value::Text(text) => text_part(alloc, text, from, to),
        Value::List(items) => list_part(alloc, items.as_slice(), from, to),
        _ => Err(Failure::Raised(Exception::TypeError)),
    }
}

fn text_part(alloc: Global, text: &Text, from: &Value, to: &Value) -> Result<Value, Failure>
    ensures { Gives result (meaning.sliced (Value-F.Text text.now) (out-Value from.now) (out-Value to.now)) }
{
    match from {
        Value::Int(from) => match to {
            Value::Int(to) => {
                let (from, to) = ends_in(*from, *to, text.len())?;
                Ok(Value::Text(part_of(alloc, text, from, to)?))
            }
            _ => Err(Failure::Raised(Exception::TypeError)),
        },
        _ => Err(Failure::Raised(Exception::TypeError)),
    }
}

/// The bytes from one place up to below another.
fn part_of(alloc: Global, text: &Text, from: usize, to: usize) -> Result<Text, AllocError>
    requires { (from ≤ to) × (to ≤ length text.now) }
    ensures { IfOk result (λ part. part ≡ take (to - from) (drop from text.now)) }
{
    let bytes = text.as_slice();
    Ok(Text::from_bytes(Vec::from_slice(alloc, &bytes[from..to])?))
}

fn list_part(alloc: Global, items: &[Value], from: &Value, to: &Value) -> Result<Value, Failure>
    ensures { Gives result (meaning.sliced (Value-F.List items.now) (out-Value from.now) (out-Value to.now)) }
{
    match from {
        Value::Int(from) => match to {
            Value::Int(to) => {
                let (from, to) = ends_in(*from, *to, items.len())?;
                Ok(Value::List(copies(alloc, &items[from..to])?))
            }
            _ => Err(Failure::Raised(Exception::TypeError)),
        },
        _ => Err(Failure::Raised(Exception::TypeError)),
    }
}

/// The list with an item at its end.
#[tactic(auto, unfolding(flow_meaning::specs::Operators::list_of), using(crate::proofs::Fitting::given_rules))]
pub fn append(alloc: Global, list: &Value, item: &Value) -> Result<Value, Failure>
    ensures { Gives result (m.applied_to BuiltIn.Append (list.now ∷ item.now ∷ [])) }
{
    can_grow(list, item)?;
    match list {
        Value::List(items) => {
            let mut items = copies(alloc, items.as_slice())?;
            items.push(item.copy(alloc)?)?;
            Ok(Value::List(items))
        }
        _ => Err(Failure::Raised(Exception::TypeError)),
    }
}

/// The Ints from one up to below another, or SizeError where they are too many for a value.
#[tactic(auto, unfolding(flow_meaning::specs::Operators::int_of))]
pub fn range(alloc: Global, from: &Value, to: &Value) -> Result<Value, Failure>
    ensures { Gives result (m.applied_to BuiltIn.Range (from.now ∷ to.now ∷ [])) }
{
    match from {
        Value::Int(from) => match to {
            Value::Int(to) => ints_between(alloc, *from, *to),
            _ => Err(Failure::Raised(Exception::TypeError)),
        },
        _ => Err(Failure::Raised(Exception::TypeError)),
    }
}

#[tactic(auto, using(crate::proofs::Ranges::limit_rules))]
fn ints_between(alloc: Global, from: i64, to: i64) -> Result<Value, Failure>
    ensures { Gives result (meaning.limited (Value.List (meaning.ints_from from (meaning.count_between (to -ℤ from))))) }
{
    if !units_fit(count_between(from, to)) {
        return Err(Failure::Raised(Exception::SizeError));
    }
    Ok(Value::List(ints_from(alloc, from, to)?))
}

#[tactic(auto, using(crate::proofs::Ranges::count_rules))]
fn count_between(from: i64, to: i64) -> u64
    ensures { result ≡ meaning.count_between (to -ℤ from) }
{
    if to <= from { 0 } else { to.abs_diff(from) }
}

#[tactic(auto, using(crate::proofs::Ranges::ints_rules))]
fn ints_from(alloc: Global, from: i64, to: i64) -> Result<Items, AllocError>
    ensures { IfOk result (λ ints. ints ≡ meaning.ints_from from (meaning.count_between (to -ℤ from))) }
{
    let mut ints = ListOf::new(alloc);
    for n in from..to {
        ints.push(Value::Int(n))?;
    }
    Ok(ints)
}
