//! The limits of a value, tested before anything is allocated.

ghost use Rattle.std.specs.Prelude.{◌≡◌, ◌∷◌, [], ◌+◌, Some, nat_le};
ghost use Rattle.app_eval.specs.Gives.{Answers, Permits};
ghost use Rattle.app_eval.specs.Joins.{joins};
ghost use Rattle.app_eval.specs.Measures.{IsMeasureOf, joined_fits, measure_fits, with_item};
ghost use Rattle.flow_base.specs.Values.{max_units};
ghost use Rattle.flow_base.specs.declared.value.Value.{out-Value};
ghost use Rattle.flow_meaning.specs.Meaning as m;
ghost use Rattle.flow_meaning.specs.Operators as meaning;

use flow_base::{Exception, MAX_LEVELS, MAX_UNITS, Text, Value};
use script_tree::tree::BuiltIn;

/// A value, or SizeError where it is past the limits.
pub fn limited(value: Value) -> Result<Value, Exception>
    ensures { Answers result (meaning.limited value) }
{
    if value.fits() {
        Ok(value)
    } else {
        Err(Exception::SizeError)
    }
}

/// Whether one unit and this many others are within the limit.
pub fn units_fit(others: u64) -> bool
    ensures { result ≡ nat_le (1 + others) max_units }
{
    others < MAX_UNITS
}

/// Whether a file of these texts is within the limits of a value.
pub fn file_fits(name: &Text, content: &Text) -> bool
    ensures { result ≡ m.file_fits name.now content.now }
{
    units_fit((name.len() as u64).saturating_add(content.len() as u64))
}

/// TypeError where two values aren't two texts or two lists, SizeError where they are past the limits together.
pub fn can_join(left: &Value, right: &Value) -> Result<(), Exception>
    ensures { Permits result (joins (out-Value left.now) (out-Value right.now)) }
{
    match left {
        Value::Text(a) => match right {
            Value::Text(b) => {
                if units_fit((a.len() as u64).saturating_add(b.len() as u64)) {
                    Ok(())
                } else {
                    Err(Exception::SizeError)
                }
            }
            _ => Err(Exception::TypeError),
        },
        Value::List(_) => match right {
            Value::List(_) => {
                if lists_fit(left, right) {
                    Ok(())
                } else {
                    Err(Exception::SizeError)
                }
            }
            _ => Err(Exception::TypeError),
        },
        _ => Err(Exception::TypeError),
    }
}

/// Whether two lists joined are within the limits.
fn lists_fit(left: &Value, right: &Value) -> bool
    ensures { result ≡ joined_fits left.now right.now }
{
    left.size().saturating_add(right.size()) <= MAX_UNITS + 1
        && left.levels() <= MAX_LEVELS
        && right.levels() <= MAX_LEVELS
}

/// TypeError where a value is no list, SizeError where it is past the limits with one more item.
#[tactic(auto, unfolding(flow_meaning::specs::Operators::list_of), using(crate::proofs::Measures::grow_rules))]
pub fn can_grow(list: &Value, item: &Value) -> Result<(), Exception>
    ensures { Permits result (m.applied_to BuiltIn.Append (list.now ∷ item.now ∷ [])) }
{
    match list {
        Value::List(_) => {
            if Measure::of(list).with(item).fits() {
                Ok(())
            } else {
                Err(Exception::SizeError)
            }
        }
        _ => Err(Exception::TypeError),
    }
}

/// The units and the levels of a value, each up to the greatest number.
#[derive(Clone, Copy, Drop)]
pub struct Measure {
    /// Bytes of text and nodes.
    pub units: u64,
    /// Levels of lists.
    pub levels: u32,
}

impl Measure {
    /// The measure of a value.
    pub fn of(value: &Value) -> Measure
        ensures { IsMeasureOf (Some result) value.now }
    {
        Measure {
            units: value.size(),
            levels: value.levels(),
        }
    }

    /// Of a list with one more item.
    pub fn with(self, item: &Value) -> Measure
        ensures { result ≡ with_item self item.now }
    {
        Measure {
            units: self.units.saturating_add(item.size()),
            levels: self.levels.max(item.levels().saturating_add(1)),
        }
    }

    /// Whether a value of this measure is within the limits.
    pub fn fits(self) -> bool
        ensures { result ≡ measure_fits self }
    {
        self.units <= MAX_UNITS && self.levels <= MAX_LEVELS
    }
}
