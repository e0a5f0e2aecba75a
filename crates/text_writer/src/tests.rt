//! Numbers, texts and paths as they are written.

use crate::Writer;
use flow_base::{Path, Text};
use std::alloc::{AllocError, Global};
use std::test::Fail;

fn path(alloc: Global, numbers: &[u32]) -> Result<Path, AllocError> {
    let mut path = Path::new(alloc);
    for number in numbers {
        path.push(*number)?;
    }
    Ok(path)
}

fn path_shown(alloc: Global, numbers: &[u32]) -> Result<String, Fail> {
    let mut writer = Writer::new(alloc);
    writer.path(&path(alloc, numbers)?)?;
    Ok(String::from_utf8(writer.into_bytes())?)
}

#[test]
fn paths(rt: HostRuntime) -> Result<(), Fail> {
    let alloc = rt.alloc();
    for (numbers, text) in [
        ([1].as_slice(), "1"),
        (&[1, 12], "1.12"),
        (&[3, 1, 4294967295], "3.1.4294967295"),
    ] {
        assert_eq!(rt; path_shown(alloc, numbers)?.as_str(), text);
    }
    Ok(())
}

// Leaves out what no text holds.
fn text(alloc: Global, bytes: &str) -> Result<Text, AllocError> {
    let mut text = Text::new(alloc);
    for byte in bytes.as_bytes() {
        if *byte == b'\n' || (*byte >= b' ' && *byte <= b'~') {
            text.push(*byte)?;
        }
    }
    Ok(text)
}

fn quoted(alloc: Global, bytes: &str) -> Result<String, Fail> {
    let mut writer = Writer::new(alloc);
    writer.quote(&text(alloc, bytes)?)?;
    Ok(String::from_utf8(writer.into_bytes())?)
}

#[test]
fn quoted_texts(rt: HostRuntime) -> Result<(), Fail> {
    let alloc = rt.alloc();
    for (bytes, spelled) in [("", r#""""#), ("a \"b\" \\ c\nd", r#""a \"b\" \\ c\nd""#)] {
        assert_eq!(rt; quoted(alloc, bytes)?.as_str(), spelled);
    }
    Ok(())
}

fn signed(alloc: Global, number: i64) -> Result<String, Fail> {
    let mut writer = Writer::new(alloc);
    writer.signed(number)?;
    Ok(String::from_utf8(writer.into_bytes())?)
}

#[test]
fn signed_numbers(rt: HostRuntime) -> Result<(), Fail> {
    let alloc = rt.alloc();
    for (number, text) in [(0, "0"), (-20, "-20")] {
        assert_eq!(rt; signed(alloc, number)?.as_str(), text);
    }
    Ok(())
}
