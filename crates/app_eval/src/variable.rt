//! What stands in a variable.

ghost use Rattle.std.specs.Prelude.{◌≡◌, ◌∷◌, [], Some};
ghost use Rattle.app_eval.specs.Frames.{Becomes};
ghost use Rattle.app_eval.specs.Measures.{IsMeasureOf};
ghost use Rattle.flow_meaning.specs.Meaning as m;

use crate::limits::Measure;
use crate::operators::Failure;
use flow_base::{Exception, Value};
use script_tree::tree::BuiltIn;
use std::marker::Model;
use std::mem;

/// The value of a variable. Once it has grown by an item its measure is kept, so that the next item
/// costs no more than itself. Contracts see the value.
#[derive(Drop)]
pub struct Variable {
    value: Value,
    measure: Option<Measure>,
}

impl Model for Variable {
    ghost use Rattle.flow_base.specs.contracts.value.Value as values;
    ghost use Rattle.flow_base.specs.declared.value.Value.{Value as V};
    ghost use Rattle.app_eval.specs.Measures.{IsMeasureOf};

    ghost Value = { V };

    ghost coded = { Prim.hlevel (values.the_row.coded) };

    ghost view = { λ h. h.value };

    ghost invariant = { λ h. IsMeasureOf h.measure h.value };
}

impl Variable {
    /// A variable with this value.
    pub fn of(value: Value) -> Variable
        ensures { result ≡ value }
    {
        Variable {
            value,
            measure: None,
        }
    }

    /// Its value.
    pub fn get(&self) -> &Value
        ensures { result.now ≡ self.now }
    {
        &self.value
    }

    /// A list gets one more item, or SizeError where it is past the limits of a value then.
    #[tactic(auto, unfolding(flow_meaning::specs::Operators::list_of))]
    pub fn append(&mut self, item: Value) -> Result<(), Failure>
        ensures { Becomes result self.new (m.applied_to BuiltIn.Append (self.old ∷ item ∷ [])) }
    {
        let measure = self.measure();
        self.measure = None;
        match mem::replace(&mut self.value, Value::Nothing) {
            Value::List(mut items) => {
                let grown = measure.with(&item);
                items.push(item)?;
                self.value = Value::List(items);
                self.measure = Some(grown);
                if grown.fits() {
                    Ok(())
                } else {
                    Err(Failure::Raised(Exception::SizeError))
                }
            }
            _ => Err(Failure::Raised(Exception::TypeError)),
        }
    }

    fn measure(&self) -> Measure
        ensures { IsMeasureOf (Some result) self.now }
    {
        match self.measure {
            Some(measure) => measure,
            None => Measure::of(&self.value),
        }
    }
}
