//! Encodings of values, byte for byte.

use crate::{DecodeFault, decode, encode, is_held, texts_json, texts_of};
use flow_base::{Items, Names, Path, Text, Value, same_names};
use std::alloc::{AllocError, Global};
use std::test::Fail;

// The value that the bytes encode, or none where they are refused.
fn read(alloc: Global, bytes: &[u8]) -> Result<Option<Value>, AllocError> {
    match decode(alloc, bytes) {
        Ok(value) => Ok(Some(value)),
        Err(DecodeFault::NotCanonical) => Ok(None),
        Err(DecodeFault::NoMemory) => Err(AllocError),
    }
}

// The encoding of a value, or no byte where it has none.
fn written(alloc: Global, value: &Value) -> Result<Vec<u8>, AllocError> {
    if !value.is_plain() || !value.fits() {
        return Ok(Vec::new(alloc));
    }
    encode(alloc, value)
}

// The encoding of the value that was read, or no byte where the bytes are refused.
fn read_and_written(alloc: Global, bytes: &[u8]) -> Result<Vec<u8>, AllocError> {
    match read(alloc, bytes)? {
        Some(value) => written(alloc, &value),
        None => Ok(Vec::new(alloc)),
    }
}

fn is_read_as(alloc: Global, bytes: &[u8], value: &Value) -> Result<bool, AllocError> {
    match read(alloc, bytes)? {
        Some(other) => Ok(other.same(value)),
        None => Ok(false),
    }
}

const ENCODED: &[u8] = b"[-3,\"a\\\"b\",{\"content\":\"x\\n\",\"name\":\"f\"},null]";

fn parts(alloc: Global) -> Result<Items, AllocError> {
    let mut items = Items::new(alloc);
    items.push(Value::Int(-3))?;
    items.push(Value::Text(Text::of(alloc, "a\"b")?))?;
    items.push(Value::File {
        name: Text::of(alloc, "f")?,
        content: Text::of(alloc, "x\n")?,
    })?;
    items.push(Value::Nothing)?;
    Ok(items)
}

#[test]
fn a_list_and_its_45_bytes(rt: HostRuntime) -> Result<(), Fail> {
    let alloc = rt.alloc();
    let value = Value::List(parts(alloc)?);
    assert_eq!(rt; ENCODED.len(), 45);
    assert_eq!(rt; written(alloc, &value)?.as_slice(), ENCODED);
    assert!(rt; is_read_as(alloc, ENCODED, &value)?);
    Ok(())
}

const CANONICAL: [&str; 9] = [
    "0",
    "-9223372036854775808",
    "9223372036854775807",
    "null",
    "\" ~\\n\\\"\\\\/\"",
    "[]",
    "[1,[],[\"x\",null]]",
    "{\"content\":\"\",\"name\":\"\"}",
    "[{\"content\":\"x\\n\",\"name\":\"f\"},[-1]]",
];

#[test]
fn what_is_read_is_written_again(rt: HostRuntime) -> Result<(), Fail> {
    for text in CANONICAL {
        let bytes = text.as_bytes();
        assert_eq!(rt; read_and_written(rt.alloc(), bytes)?.as_slice(), bytes);
    }
    Ok(())
}

// In turn: no JSON, blanks, numbers, words, long escapes, bytes of no text, and files.
const REFUSED: [&[u8]; 38] = [
    b"",
    b"[1,]",
    b"[1",
    b"1 2",
    b"[1, 2]",
    b"null ",
    b" null",
    b"[]\n",
    b"1.0",
    b"1e2",
    b"+1",
    b"-0",
    b"01",
    b"9223372036854775808",
    b"-9223372036854775809",
    b"true",
    b"false",
    b"nothing",
    b"\"\\u0041\"",
    b"\"\\u000a\"",
    b"\"\\u005C\"",
    b"\"\\/\"",
    b"\"\n\"",
    b"\"\t\"",
    b"\"\\t\"",
    b"\"\x7f\"",
    b"\"\\u007f\"",
    b"\"\\u0000\"",
    b"\"\xc3\xa9\"",
    b"\"\xff\"",
    b"{}",
    b"{\"content\":\"x\"}",
    b"{\"name\":\"f\",\"content\":\"x\"}",
    b"{\"content\":\"x\", \"name\":\"f\"}",
    b"{\"content\":\"x\",\"name\":\"f\",\"name\":\"f\"}",
    b"{\"content\":\"x\",\"name\":\"f\",\"other\":\"g\"}",
    b"{\"content\":\"x\",\"name\":1}",
    b"{\"content\":\"\\t\",\"name\":\"f\"}",
];

#[test]
fn other_bytes_are_refused(rt: HostRuntime) -> Result<(), Fail> {
    for bytes in REFUSED {
        assert!(rt; read(rt.alloc(), bytes)?.is_none());
    }
    Ok(())
}

// An empty list in so many levels of lists, its own level among them.
fn nested(alloc: Global, levels: usize) -> Result<Vec<u8>, AllocError> {
    let mut bytes = Vec::from_elem(alloc, b'[', levels)?;
    for _ in 0..levels {
        bytes.push(b']')?;
    }
    Ok(bytes)
}

fn takes_levels(alloc: Global, levels: usize) -> Result<bool, AllocError> {
    let bytes = nested(alloc, levels)?;
    Ok(read(alloc, &bytes)?.is_some())
}

#[test]
fn a_value_has_at_most_64_levels(rt: HostRuntime) -> Result<(), Fail> {
    assert!(rt; takes_levels(rt.alloc(), 64)?);
    assert!(rt; !takes_levels(rt.alloc(), 65)?);
    assert!(rt; !takes_levels(rt.alloc(), 1000)?);
    Ok(())
}

// A text of so many letters.
fn letters(alloc: Global, count: usize) -> Result<Vec<u8>, AllocError> {
    let mut bytes = Vec::from_elem(alloc, b'"', 1)?;
    for _ in 0..count {
        bytes.push(b'a')?;
    }
    bytes.push(b'"')?;
    Ok(bytes)
}

fn takes_letters(alloc: Global, count: usize) -> Result<bool, AllocError> {
    let bytes = letters(alloc, count)?;
    Ok(read(alloc, &bytes)?.is_some())
}

#[test]
fn a_text_has_at_most_65_535_bytes(rt: HostRuntime) -> Result<(), Fail> {
    assert!(rt; takes_letters(rt.alloc(), 65_535)?);
    assert!(rt; !takes_letters(rt.alloc(), 65_536)?);
    Ok(())
}

fn two_names(alloc: Global) -> Result<Names, AllocError> {
    let mut names = Names::new(alloc);
    names.push(Text::of(alloc, "sum\n\"a\"")?)?;
    names.push(Text::of(alloc, "")?)?;
    Ok(names)
}

#[test]
fn names_are_read_as_they_were_written(rt: HostRuntime) -> Result<(), Fail> {
    let names = two_names(rt.alloc())?;
    let json = texts_json(rt.alloc(), names.as_slice())?;
    let same = match texts_of(rt.alloc(), &json)? {
        Some(others) => same_names(names.as_slice(), others.as_slice()),
        None => false,
    };
    assert!(rt; same);
    Ok(())
}

#[test]
fn a_value_with_an_output_is_not_held(rt: HostRuntime) -> Result<(), Fail> {
    let mut items = parts(rt.alloc())?;
    items.push(Value::Output {
        path: Path::new(rt.alloc()),
        index: 0,
    })?;
    assert!(rt; is_held(&Value::List(parts(rt.alloc())?)));
    assert!(rt; !is_held(&Value::List(items)));
    Ok(())
}
