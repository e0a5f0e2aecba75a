//! Answers of a memo.

use crate::{Key, Memo, Saved};
use flow_base::{Files, Items, Names, Text, Value};
use std::alloc::{AllocError, Global};
use std::sync::Arc;
use std::test::Fail;

// A text of one small letter.
fn text(alloc: Global, letter: u8) -> Result<Text, AllocError> {
    let mut text = Text::new(alloc);
    if letter.is_ascii_lowercase() {
        text.push(letter)?;
    }
    Ok(text)
}

fn key_of(alloc: Global, app: Arc<Text>, argument: i64, name: u8) -> Result<Key, AllocError> {
    let mut arguments = Items::new(alloc);
    arguments.push(Value::Int(argument))?;
    let mut names = Names::new(alloc);
    names.push(text(alloc, name)?)?;
    Key::new(alloc, app, arguments, names)
}

fn key(alloc: Global, app: u8, argument: i64, name: u8) -> Result<Key, AllocError> {
    let app = Arc::new(alloc, text(alloc, app)?)?;
    key_of(alloc, app, argument, name)
}

fn saved(alloc: Global, number: i64) -> Saved {
    Saved {
        value: Value::Int(number),
        files: Files::new(alloc),
    }
}

fn number(saved: Option<&Saved>) -> Option<i64> {
    match saved {
        Some(
            Saved {
                value: Value::Int(n),
                ..
            },
        ) => Some(*n),
        _ => None,
    }
}

// What is stored in turn: app, argument, name and value.
const STORED: [(u8, i64, u8, i64); 5] = [
    (b'a', 5, b'f', 25),
    (b'b', 5, b'f', 26),
    (b'a', 6, b'f', 36),
    (b'a', 5, b'g', 27),
    (b'a', 5, b'f', 99),
];

// What is found then.
const FOUND: [(u8, i64, u8, Option<i64>); 7] = [
    (b'a', 5, b'f', Some(25)),
    (b'b', 5, b'f', Some(26)),
    (b'a', 6, b'f', Some(36)),
    (b'a', 5, b'g', Some(27)),
    (b'c', 5, b'f', None),
    (b'a', 7, b'f', None),
    (b'a', 6, b'g', None),
];

#[test]
fn the_first_value_of_a_key_stays(rt: HostRuntime) -> Result<(), Fail> {
    let alloc = rt.alloc();
    let mut memo = Memo::new(alloc);
    for (app, argument, name, value) in STORED {
        memo.store(key(alloc, app, argument, name)?, saved(alloc, value))?;
    }
    for (app, argument, name, value) in FOUND {
        assert_eq!(rt; number(memo.look(&key(alloc, app, argument, name)?)), value);
    }
    Ok(())
}

#[test]
fn a_key_lends_its_parts(rt: HostRuntime) -> Result<(), Fail> {
    let key = key(rt.alloc(), b'a', 5, b'f')?;
    assert_eq!(rt; key.app().as_str(), "a");
    assert_eq!(rt; key.arguments().as_slice().len(), 1);
    assert_eq!(rt; key.names().as_slice().len(), 1);
    Ok(())
}

// Stores a number as the value of the app's call with that argument.
fn store_number(alloc: Global, memo: &mut Memo, app: &Arc<Text>, n: i64) -> Result<(), AllocError> {
    let key = key_of(alloc, app.clone()?, n, b'f')?;
    memo.store(key, saved(alloc, n))
}

// The value of the app's call with this argument.
fn look_number(
    alloc: Global,
    memo: &Memo,
    app: &Arc<Text>,
    n: i64,
) -> Result<Option<i64>, AllocError> {
    let key = key_of(alloc, app.clone()?, n, b'f')?;
    Ok(number(memo.look(&key)))
}

// Stores the calls with the arguments below the count, each with its argument as value.
fn store_numbers(
    alloc: Global,
    memo: &mut Memo,
    app: &Arc<Text>,
    count: i64,
) -> Result<(), AllocError> {
    for n in 0..count {
        store_number(alloc, memo, app, n)?;
    }
    Ok(())
}

// Whether each of these calls has its own value.
fn all_found(alloc: Global, memo: &Memo, app: &Arc<Text>, count: i64) -> Result<bool, AllocError> {
    for n in 0..count {
        if look_number(alloc, memo, app, n)? != Some(n) {
            return Ok(false);
        }
    }
    Ok(true)
}

#[test]
fn each_of_100_000_keys_has_its_own_value(rt: HostRuntime) -> Result<(), Fail> {
    let alloc = rt.alloc();
    let app = Arc::new(alloc, text(alloc, b'a')?)?;
    let mut memo = Memo::new(alloc);
    store_numbers(alloc, &mut memo, &app, 100_000)?;
    assert!(rt; all_found(alloc, &memo, &app, 100_000)?);
    assert_eq!(rt; look_number(alloc, &memo, &app, 100_000)?, None);
    Ok(())
}
