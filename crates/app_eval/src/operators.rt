//! Operators on values.

ghost use Rattle.std.specs.Prelude.{◌≡◌, ◌≢◌, IfOk, pos, ◌+ℤ◌, ◌-ℤ◌, ◌*ℤ◌, int_div, int_rem};
ghost use Rattle.app_eval.specs.Gives.{Answers, Gives, IsGiven, Permits};
ghost use Rattle.app_eval.specs.Joins.{joins};
ghost use Rattle.flow_base.specs.declared.value.Value.{out-Value};
ghost use Rattle.flow_meaning.specs.Act.{Give};
ghost use Rattle.flow_meaning.specs.Operators as meaning;

use crate::limits::can_join;
use crate::operand::Operand;
use flow_base::{Exception, Items, Names, Text, Value};
use flow_meaning::Request;
use script_tree::tree::{SumOp, TermOp};
use sqlite_items::Items as ListOf;
use std::alloc::{AllocError, Global};

/// Why an operation gave no value.
#[derive(Drop)]
pub enum Failure {
    /// It raised this.
    Raised(Exception),
    /// The allocator had no memory left.
    NoMemory,
}

impl From<AllocError> for Failure {
    ghost use Rattle.std.specs.Prelude.{◌≡◌};
    ghost use Rattle.app_eval.specs.declared.operators.Failure.TheVariants.{NoMemory};

    ghost from_gives = { λ _ f. f ≡ NoMemory };

    fn from(_: AllocError) -> Failure {
        Failure::NoMemory
    }
}

impl From<Exception> for Failure {
    ghost use Rattle.std.specs.Prelude.{◌≡◌};
    ghost use Rattle.app_eval.specs.declared.operators.Failure.TheVariants.{Raised};

    ghost from_gives = { λ exception f. f ≡ Raised exception };

    fn from(exception: Exception) -> Failure {
        Failure::Raised(exception)
    }
}

/// Why an evaluation, which may ask, gave no value.
#[derive(Drop)]
pub enum Stop {
    /// It ended by an exception.
    Raised(Exception),
    /// It asks for this, and has no answer yet.
    Asks(Request),
    /// The allocator had no memory left.
    NoMemory,
}

impl From<AllocError> for Stop {
    ghost use Rattle.std.specs.Prelude.{◌≡◌};
    ghost use Rattle.app_eval.specs.declared.operators.Stop.TheVariants.{NoMemory};

    ghost from_gives = { λ _ s. s ≡ NoMemory };

    fn from(_: AllocError) -> Stop {
        Stop::NoMemory
    }
}

impl From<Exception> for Stop {
    ghost use Rattle.std.specs.Prelude.{◌≡◌};
    ghost use Rattle.app_eval.specs.declared.operators.Stop.TheVariants.{Raised};

    ghost from_gives = { λ exception s. s ≡ Raised exception };

    fn from(exception: Exception) -> Stop {
        Stop::Raised(exception)
    }
}

impl From<Failure> for Stop {
    ghost use Rattle.std.specs.Prelude.{◌≡◌};
    ghost use Rattle.app_eval.specs.Gives.{stop_of};

    ghost from_gives = { λ failure s. s ≡ stop_of failure };

    fn from(failure: Failure) -> Stop {
        match failure {
            Failure::Raised(exception) => Stop::Raised(exception),
            Failure::NoMemory => Stop::NoMemory,
        }
    }
}

/// The number of an Int, or TypeError.
#[tactic(auto, unfolding(flow_meaning::specs::Operators::int_of))]
pub fn int_of(value: &Value) -> Result<i64, Exception>
    ensures { Answers result (meaning.int_of value.now) }
{
    match value {
        Value::Int(n) => Ok(*n),
        _ => Err(Exception::TypeError),
    }
}

/// An Int with the other sign.
#[tactic(auto, unfolding(flow_meaning::specs::Operators::negated))]
pub fn negated(value: &Value) -> Result<Value, Exception>
    ensures { Answers result (meaning.negated value.now) }
{
    match int_of(value)?.checked_neg() {
        Some(n) => Ok(Value::Int(n)),
        None => Err(Exception::OverflowError),
    }
}

/// The product, quotient or remainder of two Ints. Division goes toward zero.
#[tactic(auto, unfolding(flow_meaning::specs::Operators::multiplied))]
pub fn multiplied(op: TermOp, left: &Value, right: &Value) -> Result<Value, Exception>
    ensures { Answers result (meaning.multiplied op left.now right.now) }
{
    let a = int_of(left)?;
    let b = int_of(right)?;
    match op {
        TermOp::Times => times(a, b),
        TermOp::Over => {
            if b == 0 {
                return Err(Exception::ZeroDivisionError);
            }
            over(a, b)
        }
        TermOp::Rest => {
            if b == 0 {
                return Err(Exception::ZeroDivisionError);
            }
            rest(a, b)
        }
    }
}

fn times(a: i64, b: i64) -> Result<Value, Exception>
    ensures { Answers result (meaning.int (a *ℤ b)) }
{
    match a.checked_mul(b) {
        Some(n) => Ok(Value::Int(n)),
        None => Err(Exception::OverflowError),
    }
}

fn over(a: i64, b: i64) -> Result<Value, Exception>
    requires { b ≢ pos 0 }
    ensures { Answers result (meaning.int (int_div a b)) }
{
    match a.checked_div(b) {
        Some(n) => Ok(Value::Int(n)),
        None => Err(Exception::OverflowError),
    }
}

fn rest(a: i64, b: i64) -> Result<Value, Exception>
    requires { b ≢ pos 0 }
    ensures { Answers result (meaning.int (int_rem a b)) }
{
    if b == -1 {
        return Ok(Value::Int(0));
    }
    Ok(Value::Int(a % b))
}

fn plus(a: i64, b: i64) -> Result<Value, Exception>
    ensures { Answers result (meaning.int (a +ℤ b)) }
{
    match a.checked_add(b) {
        Some(n) => Ok(Value::Int(n)),
        None => Err(Exception::OverflowError),
    }
}

/// Whether a condition holds: an Int that isn't 0.
#[tactic(auto, unfolding(flow_meaning::specs::Operators::truth_of, flow_meaning::specs::Operators::int_of))]
pub fn truth_of(value: &Value) -> Result<bool, Exception>
    ensures { Answers result (meaning.truth_of value.now) }
{
    Ok(int_of(value)? != 0)
}

/// The sum or the difference of two Ints, or two texts or two lists joined.
#[tactic(auto, unfolding(flow_meaning::specs::Operators::added))]
pub fn added(alloc: Global, op: SumOp, left: Operand, right: &Value) -> Result<Value, Failure>
    ensures { Gives result (meaning.added op left.entry right.now) }
{
    match op {
        SumOp::Plus => sum(alloc, left, right),
        SumOp::Minus => Ok(difference(left.get(), right)?),
    }
}

#[tactic(auto, unfolding(flow_meaning::specs::Operators::added))]
fn sum(alloc: Global, left: Operand, right: &Value) -> Result<Value, Failure>
    ensures { Gives result (meaning.added SumOp.Plus left.entry right.now) }
{
    match left.get() {
        Value::Int(a) => match right {
            Value::Int(b) => Ok(plus(*a, *b)?),
            _ => Err(Failure::Raised(Exception::TypeError)),
        },
        Value::Text(_) => match right {
            Value::Text(_) => {
                can_join(left.get(), right)?;
                Ok(joined(alloc, left.into_value(alloc)?, right)?)
            }
            _ => Err(Failure::Raised(Exception::TypeError)),
        },
        Value::List(_) => match right {
            Value::List(_) => {
                can_join(left.get(), right)?;
                Ok(joined(alloc, left.into_value(alloc)?, right)?)
            }
            _ => Err(Failure::Raised(Exception::TypeError)),
        },
        _ => Err(Failure::Raised(Exception::TypeError)),
    }
}

/// Two texts or two lists that are within the limits together, joined.
#[tactic(auto, using(crate::proofs::Fitting::given_rules))]
fn joined(alloc: Global, left: Value, right: &Value) -> Result<Value, AllocError>
    requires { IsGiven (joins (out-Value left) (out-Value right.now)) }
    ensures { IfOk result (λ value. joins (out-Value left) (out-Value right.now) ≡ Give value) }
{
    match left {
        Value::Text(mut a) => match right {
            Value::Text(b) => {
                a.append(b)?;
                Ok(Value::Text(a))
            }
            _ => unreachable!(),
        },
        Value::List(mut a) => match right {
            Value::List(b) => {
                a.append(copies(alloc, b.as_slice())?)?;
                Ok(Value::List(a))
            }
            _ => unreachable!(),
        },
        _ => unreachable!(),
    }
}

/// Copies of the values.
pub fn copies(alloc: Global, values: &[Value]) -> Result<Items, AllocError>
    ensures { IfOk result (λ copies. copies ≡ values.now) }
{
    let mut copies = ListOf::new(alloc);
    for value in values {
        copies.push(value.copy(alloc)?)?;
    }
    Ok(copies)
}

#[tactic(auto, unfolding(flow_meaning::specs::Operators::added))]
fn difference(left: &Value, right: &Value) -> Result<Value, Exception>
    ensures { Answers result (meaning.added SumOp.Minus left.now right.now) }
{
    match left {
        Value::Int(a) => match right {
            Value::Int(b) => minus(*a, *b),
            _ => Err(Exception::TypeError),
        },
        _ => Err(Exception::TypeError),
    }
}

fn minus(a: i64, b: i64) -> Result<Value, Exception>
    ensures { Answers result (meaning.int (a -ℤ b)) }
{
    match a.checked_sub(b) {
        Some(n) => Ok(Value::Int(n)),
        None => Err(Exception::OverflowError),
    }
}

/// The Int of a truth value.
pub fn truth(holds: bool) -> Value
    ensures { result ≡ meaning.truth holds }
{
    if holds { Value::Int(1) } else { Value::Int(0) }
}

/// A text, or TypeError.
#[tactic(auto, unfolding(flow_meaning::specs::Operators::text_of))]
pub fn text_of(value: Value) -> Result<Text, Exception>
    ensures { Answers result (meaning.text_of value) }
{
    match value {
        Value::Text(t) => Ok(t),
        _ => Err(Exception::TypeError),
    }
}

/// The items of a list, or TypeError.
#[tactic(auto, unfolding(flow_meaning::specs::Operators::list_of))]
pub fn list_of(value: Value) -> Result<Items, Exception>
    ensures { Answers result (meaning.list_of value) }
{
    match value {
        Value::List(items) => Ok(items),
        _ => Err(Exception::TypeError),
    }
}

/// The texts of a list of texts, or TypeError.
#[tactic(auto, unfolding(flow_meaning::specs::Operators::text_of))]
pub fn texts_of(alloc: Global, values: &[Value]) -> Result<Names, Failure>
    ensures { Gives result (meaning.texts_of values.now) }
{
    are_texts(values)?;
    let mut texts = ListOf::new(alloc);
    for value in values {
        match value {
            Value::Text(t) => texts.push(t.copy(alloc)?)?,
            _ => return Err(Failure::Raised(Exception::TypeError)),
        }
    }
    Ok(texts)
}

/// TypeError where a value is no text.
#[tactic(auto, unfolding(flow_meaning::specs::Operators::text_of))]
pub fn are_texts(values: &[Value]) -> Result<(), Exception>
    ensures { Permits result (meaning.texts_of values.now) }
{
    for value in values {
        match value {
            Value::Text(_) => {}
            _ => return Err(Exception::TypeError),
        }
    }
    Ok(())
}
