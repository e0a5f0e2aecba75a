//! Items of lists and bytes of texts, by their places.

ghost use Rattle.std.specs.Prelude.{◌<◌, ◌≤◌, IfOk};
ghost use Rattle.app_eval.specs.Gives.{Answers, AnswersRef, Gives};
ghost use Rattle.flow_base.specs.declared.value.Value.TheOpen.{Value-F};
ghost use Rattle.flow_meaning.specs.Operators as meaning;

use crate::operand::Operand;
use crate::operators::Failure;
use flow_base::{Exception, Text, Value};
use sqlite_items::at;
use std::alloc::Global;

/// The place that an Int names among `count`, or IndexError.
pub fn place_in(index: i64, count: usize) -> Result<usize, Exception>
    ensures gives { Answers result (meaning.place_in index count) }
    ensures within { IfOk result (λ place. place < count) }
{
    if index < 0 {
        return Err(Exception::IndexError);
    }
    let place = index as usize;
    if place < count {
        Ok(place)
    } else {
        Err(Exception::IndexError)
    }
}

/// The two ends of a part of `count` things, or IndexError.
pub fn ends_in(from: i64, to: i64, count: usize) -> Result<(usize, usize), Exception>
    ensures gives { Answers result (meaning.ends_in from to count) }
    ensures within { IfOk result (λ ends. (ends.0 ≤ ends.1) × (ends.1 ≤ count)) }
{
    if from < 0 {
        return Err(Exception::IndexError);
    }
    if to < 0 {
        return Err(Exception::IndexError);
    }
    let ends = (from as usize, to as usize);
    if ends.0 <= ends.1 && ends.1 <= count {
        Ok(ends)
    } else {
        Err(Exception::IndexError)
    }
}

/// An item of a list, or a text of one byte of a text. An item of a list that is kept is kept.
#[tactic(auto, unfolding(flow_meaning::specs::Operators::indexed))]
pub fn indexed<'a>(alloc: Global, from: Operand<'a>, index: &Value) -> Result<Operand<'a>, Failure>
    ensures { Gives result (meaning.indexed from.entry index.now) }
{
    match from.kept_value() {
        Some(list) => kept_item(alloc, list, index),
        None => Ok(Operand::made(item_of(alloc, from.get(), index)?)),
    }
}

/// An item of a value that is kept.
#[tactic(auto, unfolding(flow_meaning::specs::Operators::indexed))]
fn kept_item<'a>(alloc: Global, from: &'a Value, index: &Value) -> Result<Operand<'a>, Failure>
    ensures { Gives result (meaning.indexed from.now index.now) }
{
    match from {
        Value::List(items) => match index {
            Value::Int(i) => Ok(Operand::kept(item_at(items.as_slice(), *i)?)),
            _ => Err(Failure::Raised(Exception::TypeError)),
        },
        _ => Ok(Operand::made(item_of(alloc, from, index)?)),
    }
}

#[tactic(auto, unfolding(flow_meaning::specs::Operators::indexed))]
fn item_of(alloc: Global, from: &Value, index: &Value) -> Result<Value, Failure>
    ensures { Gives result (meaning.indexed from.now index.now) }
{
    match from {
        Value::List(items) => match index {
            Value::Int(i) => Ok(item_at(items.as_slice(), *i)?.copy(alloc)?),
            _ => Err(Failure::Raised(Exception::TypeError)),
        },
        Value::Text(text) => match index {
            Value::Int(i) => byte_at(alloc, text, *i),
            _ => Err(Failure::Raised(Exception::TypeError)),
        },
        _ => Err(Failure::Raised(Exception::TypeError)),
    }
}

fn item_at(items: &[Value], index: i64) -> Result<&Value, Exception>
    ensures { AnswersRef result (meaning.item_at (Value-F.List items.now) (Value-F.Int index)) }
{
    let place = place_in(index, items.len())?;
    match at(items, place) {
        Some(item) => Ok(item),
        None => Err(Exception::IndexError),
    }
}

#[tactic(auto, using(crate::proofs::Within::text_item_within))]
fn byte_at(alloc: Global, text: &Text, index: i64) -> Result<Value, Failure>
    ensures { Gives result (meaning.item_at (Value-F.Text text.now) (Value-F.Int index)) }
{
    let bytes = text.as_slice();
    let place = place_in(index, bytes.len())?;
    let mut item = Text::new(alloc);
    item.push(bytes[place])?;
    Ok(Value::Text(item))
}
