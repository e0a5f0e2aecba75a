//! Values.

ghost use Rattle.std.specs.Prelude.{◌≡◌, ◌+◌, ◌-◌, ◌^◌, min, length, IfOk};
ghost use Rattle.flow_base.specs.Values.{units, levels, fits, is_plain};

use crate::path::Path;
use crate::text::Text;
use sqlite_items::Items as ListOf;
use std::alloc::{AllocError, Global};

/// A list of values.
pub type Items = ListOf<Value>;

/// The most units of a value: bytes of text and nodes.
pub const MAX_UNITS: u64 = 65_536;

/// The most levels of lists of a value.
pub const MAX_LEVELS: u32 = 64;

/// What an expression gives.
#[derive(Drop)]
pub enum Value {
    Int(i64),
    Text(Text),
    List(ListOf<Value>),
    File { name: Text, content: Text },
    /// The AppFuture of a call, with the number of its outputs.
    Future { path: Path, outputs: u32 },
    /// The DataFuture of an output of a call, with its index from 0.
    Output { path: Path, index: u32 },
    Nothing,
}

fn text_units(text: &Text) -> u64
    ensures { result ≡ min (1 + length text.now) (2 ^ 64 - 1) }
{
    (text.len() as u64).saturating_add(1)
}

impl Value {
    /// The units: bytes of text and nodes, or the greatest number where there are more.
    #[tactic(auto, unfolding(crate::specs::Values::units))]
    pub fn size(&self) -> u64
        ensures { result ≡ min (units self.now) (2 ^ 64 - 1) }
    {
        match self {
            Value::Text(text) => text_units(text),
            Value::List(items) => {
                let mut total: u64 = 1;
                for item in items.as_slice() {
                    total = total.saturating_add(item.size());
                }
                total
            }
            Value::File { name, content } => {
                text_units(name).saturating_add(content.len() as u64)
            }
            Value::Int(_) => 1,
            Value::Future { .. } => 1,
            Value::Output { .. } => 1,
            Value::Nothing => 1,
        }
    }

    /// The levels of lists, at least 1, or the greatest number where there are more.
    #[tactic(auto, unfolding(crate::specs::Values::levels))]
    pub fn levels(&self) -> u32
        ensures { result ≡ min (levels self.now) (2 ^ 32 - 1) }
    {
        match self {
            Value::List(items) => {
                let mut deepest: u32 = 0;
                for item in items.as_slice() {
                    deepest = deepest.max(item.levels());
                }
                deepest.saturating_add(1)
            }
            _ => 1,
        }
    }

    /// Whether it is within the limits of a value: `MAX_UNITS` units and `MAX_LEVELS` levels.
    pub fn fits(&self) -> bool
        ensures { result ≡ fits self.now }
    {
        self.size() <= MAX_UNITS && self.levels() <= MAX_LEVELS
    }

    /// Whether no future and no output stands in it.
    #[tactic(auto, unfolding(crate::specs::Values::is_plain))]
    pub fn is_plain(&self) -> bool
        ensures { result ≡ is_plain self.now }
    {
        match self {
            Value::List(items) => {
                for item in items.as_slice() {
                    if !item.is_plain() {
                        return false;
                    }
                }
                true
            }
            Value::Future { .. } => false,
            Value::Output { .. } => false,
            _ => true,
        }
    }

    /// An equal value.
    #[cycle(copy)]
    pub fn copy(&self, alloc: Global) -> Result<Value, AllocError>
        ensures { IfOk result (λ v. v ≡ self.now) }
    {
        match self {
            Value::Int(n) => Ok(Value::Int(*n)),
            Value::Text(text) => Ok(Value::Text(text.copy(alloc)?)),
            Value::List(items) => Ok(Value::List(copy_values(alloc, items.as_slice())?)),
            Value::File { name, content } => Ok(Value::File {
                name: name.copy(alloc)?,
                content: content.copy(alloc)?,
            }),
            Value::Future { path, outputs } => Ok(Value::Future {
                path: path.copy(alloc)?,
                outputs: *outputs,
            }),
            Value::Output { path, index } => Ok(Value::Output {
                path: path.copy(alloc)?,
                index: *index,
            }),
            Value::Nothing => Ok(Value::Nothing),
        }
    }
}

/// Equal values, in the same order.
#[cycle(copy)]
pub fn copy_values(alloc: Global, items: &[Value]) -> Result<Items, AllocError>
    ensures { IfOk result (λ copies. copies ≡ items.now) }
{
    let mut copies = ListOf::new(alloc);
    for item in items {
        copies.push(item.copy(alloc)?)?;
    }
    Ok(copies)
}
