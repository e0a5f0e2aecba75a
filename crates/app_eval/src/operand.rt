//! Values that stand in a variable or were made.

ghost use Rattle.std.specs.Prelude.{◌≡◌, Some, IfOk, OnSome, option_copied};

use flow_base::Value;
use std::alloc::{AllocError, Global};
use std::marker::Model;

/// Where a value is.
#[derive(Drop)]
pub enum Source<'a> {
    /// In a variable or in the code.
    Kept(&'a Value),
    /// Made by an operation.
    Made(Value),
}

/// What an expression gives, without a copy of what stands in a variable or in the code. Contracts
/// see the value.
#[derive(Drop)]
pub struct Operand<'a> {
    source: Source<'a>,
}

impl<'a> Model for Operand<'a> {
    ghost use Rattle.flow_base.specs.contracts.value.Value as value;
    ghost use Rattle.flow_base.specs.declared.value.Value.{Value as V};
    ghost use Rattle.app_eval.specs.Operands.{value_in};

    ghost Value = { V };

    ghost coded = { Prim.hlevel (value.the_row.coded) };

    ghost view = { λ g. value_in g.source };
}

impl<'a> Operand<'a> {
    /// A value that stands elsewhere.
    pub fn kept(value: &'a Value) -> Operand<'a>
        ensures { result ≡ value.now }
    {
        Operand {
            source: Source::Kept(value),
        }
    }

    /// A value of its own.
    pub fn made(value: Value) -> Operand<'a>
        ensures { result ≡ value }
    {
        Operand {
            source: Source::Made(value),
        }
    }

    /// The value, wherever it stands.
    pub fn get(&self) -> &Value
        ensures { result.now ≡ self.now }
    {
        match &self.source {
            Source::Kept(value) => value,
            Source::Made(value) => value,
        }
    }

    /// The value where it is kept.
    pub fn kept_value(&self) -> Option<&'a Value>
        ensures { OnSome result (option_copied result ≡ Some self.now) }
    {
        match &self.source {
            Source::Kept(value) => Some(value),
            Source::Made(_) => None,
        }
    }

    /// The value itself, or a copy of the one that is kept.
    pub fn into_value(self, alloc: Global) -> Result<Value, AllocError>
        ensures { IfOk result (λ value. value ≡ self.entry) }
    {
        let Operand { source } = self;
        match source {
            Source::Kept(value) => value.copy(alloc),
            Source::Made(value) => Ok(value),
        }
    }
}
