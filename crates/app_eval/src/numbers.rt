//! The built-ins between Ints and texts.

ghost use Rattle.std.specs.Prelude.{◌∷◌, [], ◌≡◌, pos, neg_ℤ, IfOk};
ghost use Rattle.app_eval.specs.Gives.{Answers, Gives};
ghost use Rattle.app_eval.specs.Numbers.{capped};
ghost use Rattle.flow_meaning.specs.Meaning as m;
ghost use Rattle.flow_meaning.specs.Operators as meaning;

use crate::operators::Failure;
use flow_base::{Exception, Text, Value};
use script_tree::tree::BuiltIn;
use std::alloc::{AllocError, Global};

/// The decimal text of an Int.
#[tactic(auto, unfolding(flow_meaning::specs::Operators::int_of))]
pub fn text(alloc: Global, value: &Value) -> Result<Value, Failure>
    ensures { Gives result (m.applied_to BuiltIn.Text (value.now ∷ [])) }
{
    match value {
        Value::Int(n) => Ok(Value::Text(decimal(alloc, *n)?)),
        _ => Err(Failure::Raised(Exception::TypeError)),
    }
}

fn decimal(alloc: Global, n: i64) -> Result<Text, AllocError>
    ensures { IfOk result (λ text. text ≡ meaning.int_text n) }
{
    let digits = format!(in alloc; "{n}")?;
    Text::of(alloc, digits.as_str())
}

/// The Int that a text spells: digits, with `-` before them or none; else ValueError.
#[tactic(auto, unfolding(flow_meaning::specs::Operators::text_of))]
pub fn number(value: &Value) -> Result<Value, Exception>
    ensures { Answers result (m.applied_to BuiltIn.Number (value.now ∷ [])) }
{
    match value {
        Value::Text(text) => number_in(text.as_slice()),
        _ => Err(Exception::TypeError),
    }
}

#[tactic(auto, using(crate::proofs::Magnitudes::number_rules))]
fn number_in(text: &[u8]) -> Result<Value, Exception>
    ensures { Answers result (meaning.the_number (meaning.number_in text.now)) }
{
    match text {
        [] => Err(Exception::ValueError),
        [first, digits @ ..] => {
            if *first == b'-' {
                negative(magnitude(digits)?)
            } else {
                positive(magnitude(text)?)
            }
        }
    }
}

#[tactic(auto, using(crate::proofs::Magnitudes::int_rules))]
fn positive(magnitude: u64) -> Result<Value, Exception>
    ensures { Answers result (meaning.int (pos magnitude)) }
{
    match i64::try_from(magnitude) {
        Ok(n) => Ok(Value::Int(n)),
        Err(_) => Err(Exception::OverflowError),
    }
}

#[tactic(auto, using(crate::proofs::Magnitudes::int_rules))]
fn negative(magnitude: u64) -> Result<Value, Exception>
    ensures { Answers result (meaning.int (neg_ℤ (pos magnitude))) }
{
    match i64::try_from(magnitude) {
        Ok(n) => Ok(Value::Int(-n)),
        Err(_) => {
            if magnitude == 1 << 63 {
                Ok(Value::Int(i64::MIN))
            } else {
                Err(Exception::OverflowError)
            }
        }
    }
}

/// The number that digits spell, or the greatest where it is past 64 bits; ValueError where they
/// are no digits.
fn magnitude(digits: &[u8]) -> Result<u64, Exception>
    ensures { Answers result (capped (meaning.natural digits.now)) }
{
    if digits.is_empty() {
        return Err(Exception::ValueError);
    }
    let mut value: u64 = 0;
    for digit in digits {
        if !digit.is_ascii_digit() {
            return Err(Exception::ValueError);
        }
        value = value
            .saturating_mul(10)
            .saturating_add(u64::from(*digit - b'0'));
    }
    Ok(value)
}
