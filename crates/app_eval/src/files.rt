//! The built-ins on files and outputs.

ghost use Rattle.std.specs.Prelude.{◌∷◌, []};
ghost use Rattle.app_eval.specs.Gives.{Gives};
ghost use Rattle.flow_meaning.specs.Meaning as m;
ghost use Rattle.flow_meaning.specs.Operators as meaning;

use crate::indexing::place_in;
use crate::limits::file_fits;
use crate::operators::Failure;
use flow_base::{Exception, Text, Value};
use script_tree::tree::BuiltIn;
use std::alloc::Global;

/// A file of two texts.
#[tactic(auto, unfolding(flow_meaning::specs::Operators::text_of))]
pub fn file(alloc: Global, name: &Value, content: &Value) -> Result<Value, Failure>
    ensures { Gives result (m.applied_to BuiltIn.File (name.now ∷ content.now ∷ [])) }
{
    match name {
        Value::Text(name) => match content {
            Value::Text(content) => file_of(alloc, name, content),
            _ => Err(Failure::Raised(Exception::TypeError)),
        },
        _ => Err(Failure::Raised(Exception::TypeError)),
    }
}

#[tactic(auto, using(crate::proofs::Fitting::file_rules))]
fn file_of(alloc: Global, name: &Text, content: &Text) -> Result<Value, Failure>
    ensures { Gives result (meaning.limited (Value.File name.now content.now)) }
{
    if !file_fits(name, content) {
        return Err(Failure::Raised(Exception::SizeError));
    }
    Ok(Value::File {
        name: name.copy(alloc)?,
        content: content.copy(alloc)?,
    })
}

/// The name of a file.
pub fn name(alloc: Global, file: &Value) -> Result<Value, Failure>
    ensures { Gives result (m.applied_to BuiltIn.Name (file.now ∷ [])) }
{
    match file {
        Value::File { name, .. } => Ok(Value::Text(name.copy(alloc)?)),
        _ => Err(Failure::Raised(Exception::TypeError)),
    }
}

/// The content of a file.
pub fn content(alloc: Global, file: &Value) -> Result<Value, Failure>
    ensures { Gives result (m.applied_to BuiltIn.Content (file.now ∷ [])) }
{
    match file {
        Value::File { content, .. } => Ok(Value::Text(content.copy(alloc)?)),
        _ => Err(Failure::Raised(Exception::TypeError)),
    }
}

/// The output of a future at an index, or IndexError.
pub fn output(alloc: Global, future: &Value, index: &Value) -> Result<Value, Failure>
    ensures { Gives result (m.applied_to BuiltIn.Output (future.now ∷ index.now ∷ [])) }
{
    match future {
        Value::Future { path, outputs } => match index {
            Value::Int(index) => {
                let place = place_in(*index, *outputs as usize)?;
                Ok(Value::Output {
                    path: path.copy(alloc)?,
                    index: place as u32,
                })
            }
            _ => Err(Failure::Raised(Exception::TypeError)),
        },
        _ => Err(Failure::Raised(Exception::TypeError)),
    }
}
