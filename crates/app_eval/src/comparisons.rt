//! Comparisons of values.

ghost use Rattle.std.specs.Prelude.{◌≡◌};
ghost use Rattle.app_eval.specs.Gives.{Answers};
ghost use Rattle.flow_base.specs.declared.value.Value.{out-Value};
ghost use Rattle.flow_meaning.specs.Operators as meaning;

use crate::operators::truth;
use flow_base::{Exception, Text, Value};
use script_tree::tree::CompareOp;

/// What a comparison gives: 0 or 1, or TypeError where an order isn't of two Ints or two texts.
#[tactic(auto, unfolding(flow_meaning::specs::Operators::compared))]
pub fn compared(op: CompareOp, left: &Value, right: &Value) -> Result<Value, Exception>
    ensures { Answers result (meaning.compared op left.now right.now) }
{
    match op {
        CompareOp::Equal => Ok(truth(left.same(right))),
        CompareOp::Differ => Ok(truth(!left.same(right))),
        CompareOp::Less => Ok(truth(is_less(left, right)?)),
        CompareOp::AtLeast => Ok(truth(!is_less(left, right)?)),
        CompareOp::Greater => Ok(truth(is_less(right, left)?)),
        CompareOp::AtMost => Ok(truth(!is_less(right, left)?)),
    }
}

/// Whether the left is less: of two Ints, or of two texts by bytes.
fn is_less(left: &Value, right: &Value) -> Result<bool, Exception>
    ensures { Answers result (meaning.less (out-Value left.now) (out-Value right.now)) }
{
    match left {
        Value::Int(a) => match right {
            Value::Int(b) => Ok(*a < *b),
            _ => Err(Exception::TypeError),
        },
        Value::Text(a) => match right {
            Value::Text(b) => Ok(is_text_less(a, b)),
            _ => Err(Exception::TypeError),
        },
        _ => Err(Exception::TypeError),
    }
}

/// The first byte in which they differ decides, and else the shorter is less.
fn is_text_less(left: &Text, right: &Text) -> bool
    ensures { result ≡ meaning.text_lt left.now right.now }
{
    left.as_slice() < right.as_slice()
}
