//! From JSON to values.

ghost use Rattle.std.specs.Prelude.{◌≡◌, IfOk, IfErr, option_and_then, option_map};
ghost use Rattle.flow_base.specs.declared.value.Value.{Value};
ghost use Rattle.flow_codec.specs.Decoding as spec;
ghost use Rattle.flow_codec.specs.Decoding.{Encodes, IsJson};
ghost use Rattle.flow_codec.specs.Holding.{is_text, is_text_byte};
ghost use Rattle.flow_codec.specs.declared.reader.DecodeFault.TheVariants.{NoMemory, NotCanonical};
ghost use Rattle.serde_json.specs.Find.{as_object, get};
ghost use Rattle.serde_json.specs.View.{view, items_view};

use crate::writer::encode;
use flow_base::{FileOut, Items, Names, Text, Value};
use serde_json::Value as Json;
use std::alloc::{AllocError, Global};
use thiserror::Error;

/// Why bytes aren't read.
#[derive(Debug, Drop, Error)]
pub enum DecodeFault {
    /// No plain value within the limits has this encoding.
    #[error("not the encoding of a value")]
    NotCanonical,
    /// The allocator had no memory left.
    #[error("out of memory")]
    NoMemory,
}

impl From<AllocError> for DecodeFault {
    ghost from_gives = { λ _ e. e ≡ NoMemory };

    fn from(_: AllocError) -> DecodeFault {
        DecodeFault::NoMemory
    }
}

fn is_text_byte(byte: u8) -> bool
    ensures { result ≡ is_text_byte byte }
{
    byte == b'\n' || (b' ' <= byte && byte <= b'~')
}

fn is_text(bytes: &[u8]) -> bool
    ensures { result ≡ is_text bytes.now }
{
    for byte in bytes {
        if !is_text_byte(*byte) {
            return false;
        }
    }
    true
}

/// The text that a JSON string is. It gives none for other JSON, and for a string with a byte that no text has.
pub fn text_of(alloc: Global, json: &Json) -> Result<Option<Text>, AllocError>
    ensures { IfOk result (λ text. text ≡ spec.text_in (view json.now)) }
{
    let Some(string) = json.as_str() else {
        return Ok(None);
    };
    if !is_text(string.as_bytes()) {
        return Ok(None);
    }
    Ok(Some(Text::of(alloc, string)?))
}

/// The texts that these items are, in the same order. It gives none where one of them is no text.
pub fn texts_of(alloc: Global, items: &[Json]) -> Result<Option<Names>, AllocError>
    ensures { IfOk result (λ texts. texts ≡ spec.texts_of (items_view items.now)) }
{
    let mut texts = Names::new(alloc);
    for item in items {
        match text_of(alloc, item)? {
            Some(text) => texts.push(text)?,
            None => return Ok(None),
        }
    }
    Ok(Some(texts))
}

// The text that an object has under a key.
fn text_at(alloc: Global, json: &Json, key: &str) -> Result<Option<Text>, AllocError>
    ensures { IfOk result
        (λ text. text ≡ option_and_then spec.text_in (get key.now (view json.now))) }
{
    match json.get(key) {
        Some(member) => text_of(alloc, member),
        None => Ok(None),
    }
}

/// The file that a JSON object is. It gives none unless the object has just the texts `content` and `name`.
pub fn file_of(alloc: Global, json: &Json) -> Result<Option<FileOut>, AllocError>
    ensures { IfOk result
        (λ file. file ≡ option_and_then spec.file_in (as_object (view json.now))) }
{
    let Some(members) = json.as_object() else {
        return Ok(None);
    };
    if members.len() != 2 {
        return Ok(None);
    }
    let Some(name) = text_at(alloc, json, "name")? else {
        return Ok(None);
    };
    let Some(content) = text_at(alloc, json, "content")? else {
        return Ok(None);
    };
    Ok(Some(FileOut { name, content }))
}

/// The plain value that JSON stands for, of any size. It gives none for a boolean, a number that is no whole number
/// of 64 bits, a string that is no text and an object that is no file, at any place.
#[cycle(value)]
pub fn value_of(alloc: Global, json: &Json) -> Result<Option<Value>, AllocError>
    ensures { IfOk result (λ value. value ≡ spec.value_of (view json.now)) }
{
    match json {
        Json::Null => Ok(Some(Value::Nothing)),
        Json::Bool(_) => Ok(None),
        Json::Number(number) => Ok(number.as_i64().map(Value::Int)),
        Json::String(_) => match text_of(alloc, json)? {
            Some(text) => Ok(Some(Value::Text(text))),
            None => Ok(None),
        },
        Json::Array(items) => match values_of(alloc, items.as_slice())? {
            Some(values) => Ok(Some(Value::List(values))),
            None => Ok(None),
        },
        Json::Object(_) => match file_of(alloc, json)? {
            Some(FileOut { name, content }) => Ok(Some(Value::File { name, content })),
            None => Ok(None),
        },
    }
}

/// The plain values that these items stand for, in the same order. It gives none where one of them stands for none.
#[cycle(value)]
pub fn values_of(alloc: Global, items: &[Json]) -> Result<Option<Items>, AllocError>
    ensures { IfOk result (λ values. values ≡ spec.values_of (items_view items.now)) }
{
    let mut values = Items::new(alloc);
    for item in items {
        match value_of(alloc, item)? {
            Some(value) => values.push(value)?,
            None => return Ok(None),
        }
    }
    Ok(Some(values))
}

/// The JSON that the bytes are. It gives none where they are no JSON, or have more than 127 levels.
pub fn read_json(alloc: Global, bytes: &[u8]) -> Result<Option<Json>, AllocError>
    ensures { IfOk result (λ json. IsJson bytes.now (option_map view json)) }
{
    match Json::from_slice(alloc, bytes) {
        Ok(json) => Ok(Some(json)),
        Err(e) if e.is_memory() => Err(AllocError),
        Err(_) => Ok(None),
    }
}

/// The plain value within the limits that has this encoding. It fails with `NotCanonical` exactly where there is none.
pub fn decode(alloc: Global, bytes: &[u8]) -> Result<Value, DecodeFault>
    ensures ok { IfOk result (λ value. Encodes bytes.now value) }
    ensures err { IfErr result
        (λ fault. fault ≡ NotCanonical → (value : Value) → Encodes bytes.now value → ⊥) }
{
    let Some(json) = read_json(alloc, bytes)? else {
        return Err(DecodeFault::NotCanonical);
    };
    let Some(value) = value_of(alloc, &json)? else {
        return Err(DecodeFault::NotCanonical);
    };
    if !value.fits() {
        return Err(DecodeFault::NotCanonical);
    }
    if encode(alloc, &value)?.as_slice() != bytes {
        return Err(DecodeFault::NotCanonical);
    }
    Ok(value)
}
