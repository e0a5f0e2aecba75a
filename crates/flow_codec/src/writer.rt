//! From values to JSON.

ghost use Rattle.std.specs.Prelude.{◌≡◌, IfOk, IsTrue, map};
ghost use Rattle.flow_base.specs.Values.{fits, is_plain};
ghost use Rattle.flow_codec.specs.Encoding.{data_of, file_data, encoding};
ghost use Rattle.serde_json.specs.Data.{string};
ghost use Rattle.serde_json.specs.View.{view};

use flow_base::{Text, Value};
use serde_json::{Map, Number, Value as Json, put};
use std::alloc::{AllocError, Global};

/// The text as a JSON string.
pub fn text_json(alloc: Global, text: &Text) -> Result<Json, AllocError>
    ensures { IfOk result (λ json. view json ≡ string text.now) }
{
    Ok(Json::String(String::from_str(alloc, text.as_str())?))
}

/// The file as a JSON object: the string `content`, then the string `name`.
pub fn file_json(alloc: Global, name: &Text, content: &Text) -> Result<Json, AllocError>
    ensures { IfOk result (λ json. view json ≡ file_data name.now content.now) }
{
    let mut members = Map::new(alloc);
    put(&mut members, alloc, "content", text_json(alloc, content)?)?;
    put(&mut members, alloc, "name", text_json(alloc, name)?)?;
    Ok(Json::Object(members))
}

/// The value as JSON. A future or an output gives null, as nothing does.
#[cycle(json)]
#[tactic(auto, unfolding(crate::specs::Encoding::data_of))]
pub fn json_of(alloc: Global, value: &Value) -> Result<Json, AllocError>
    ensures { IfOk result (λ json. view json ≡ data_of value.now) }
{
    match value {
        Value::Int(n) => Ok(Json::Number(Number::from(*n))),
        Value::Text(t) => text_json(alloc, t),
        Value::List(items) => Ok(Json::Array(values_json(alloc, items.as_slice())?)),
        Value::File { name, content } => file_json(alloc, name, content),
        Value::Future { .. } => Ok(Json::Null),
        Value::Output { .. } => Ok(Json::Null),
        Value::Nothing => Ok(Json::Null),
    }
}

/// Each value as JSON, in the same order.
#[cycle(json)]
pub fn values_json(alloc: Global, items: &[Value]) -> Result<Vec<Json>, AllocError>
    ensures { IfOk result (λ list. map view list.items ≡ map data_of items.now) }
{
    let mut list = Vec::new(alloc);
    for item in items {
        list.push(json_of(alloc, item)?)?;
    }
    Ok(list)
}

/// Each text as a JSON string, in the same order.
pub fn texts_json(alloc: Global, texts: &[Text]) -> Result<Vec<Json>, AllocError>
    ensures { IfOk result (λ list. map view list.items ≡ map string texts.now) }
{
    let mut list = Vec::new(alloc);
    for text in texts {
        list.push(text_json(alloc, text)?)?;
    }
    Ok(list)
}

/// The one encoding of a plain value within the limits: its JSON without blanks. It fails for want of memory alone.
#[tactic(auto, unfolding(crate::specs::Encoding::encoding), using(crate::proofs::NoFloat::no_float))]
pub fn encode(alloc: Global, value: &Value) -> Result<Vec<u8>, AllocError>
    requires plain { IsTrue (is_plain value.now) }
    requires fits { IsTrue (fits value.now) }
    ensures { IfOk result (λ bytes. bytes.items ≡ encoding value.now) }
{
    json_of(alloc, value)?.to_vec(alloc)
}
