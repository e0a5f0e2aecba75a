//! Answers of a table.

ghost use Rattle.std.specs.Prelude.{◌≡◌, ◌++◌, ◌∷◌, [], None, Some, IfOk, OnOk};
ghost use Rattle.app_future.specs.Futures.{found};

use crate::{DataFuture, FutureTable};
use flow_base::{Exception, FileOut, Files, Outcome, Path, Text, Value};
use std::alloc::{AllocError, Global};
use std::test::Fail;

fn path(alloc: Global, number: u32) -> Result<Path, AllocError>
    ensures { IfOk result (λ path. path ≡ number ∷ []) }
{
    let mut path = Path::new(alloc);
    path.push(number)?;
    Ok(path)
}

fn text(alloc: Global, letter: u8) -> Result<Text, AllocError> {
    let mut text = Text::new(alloc);
    if letter.is_ascii_lowercase() {
        text.push(letter)?;
    }
    Ok(text)
}

fn file(alloc: Global, letter: u8) -> Result<FileOut, AllocError> {
    Ok(FileOut {
        name: text(alloc, letter)?,
        content: text(alloc, b'x')?,
    })
}

/// The value 7 with the files a and b.
fn seven(alloc: Global) -> Result<Outcome, AllocError> {
    let mut files = Files::new(alloc);
    files.push(file(alloc, b'a')?)?;
    files.push(file(alloc, b'b')?)?;
    Ok(Outcome::Value {
        value: Value::Int(7),
        files,
    })
}

fn add(table: &mut FutureTable, alloc: Global, number: u32) -> Result<(), AllocError>
    requires { found table.old (number ∷ []) ≡ None }
    ensures { OnOk result (table.new ≡ table.old ++ (number ∷ [], record { outputs = 2; outcome = None }) ∷ []) }
{
    table.add(alloc, path(alloc, number)?, 2)?;
    Ok(())
}

/// The futures of the paths 1, 2 and 3.
fn three_open(alloc: Global) -> Result<FutureTable, AllocError>
    ensures { IfOk result (λ table. table ≡ (1 ∷ [], record { outputs = 2; outcome = None }) ∷ (2 ∷ [], record { outputs = 2; outcome = None }) ∷ (3 ∷ [], record { outputs = 2; outcome = None }) ∷ []) }
{
    let mut table = FutureTable::new(alloc);
    add(&mut table, alloc, 1)?;
    add(&mut table, alloc, 2)?;
    add(&mut table, alloc, 3)?;
    Ok(table)
}

/// The future of 1 is open, 2 has a value with two files, and 3 failed.
fn two_settled(alloc: Global) -> Result<FutureTable, AllocError> {
    let second = path(alloc, 2)?;
    let third = path(alloc, 3)?;
    let value = seven(alloc)?;
    let mut table = three_open(alloc)?;
    table.settle(&second, value);
    table.settle(&third, Outcome::Failed(Exception::ZeroDivisionError));
    Ok(table)
}

fn outcome_shown(outcome: Option<&Outcome>) -> &'static str {
    match outcome {
        None => "none",
        Some(Outcome::Value { .. }) => "value",
        Some(Outcome::Failed(exception)) => exception.name(),
    }
}

/// The names of the files of the outputs 0, 1 and 2, each with a point behind it.
fn files_shown(alloc: Global, table: &FutureTable, number: u32) -> Result<String, AllocError> {
    let mut shown = String::new(alloc);
    for index in 0..3 {
        let path = path(alloc, number)?;
        if let Some(file) = table.file(&DataFuture { path, index }) {
            shown.push_str(file.name.as_str())?;
        }
        shown.push_str(".")?;
    }
    Ok(shown)
}

// Each path with whether it is done, its outcome and its files.
const ANSWERS: [(u32, bool, &str, &str); 4] = [
    (4, false, "none", "..."),
    (1, false, "none", "..."),
    (2, true, "value", "a.b.."),
    (3, true, "ZeroDivisionError", "..."),
];

#[test]
fn answers_by_path(rt: HostRuntime) -> Result<(), Fail> {
    let alloc = rt.alloc();
    let table = two_settled(alloc)?;
    for (number, done, outcome, files) in ANSWERS {
        let path = path(alloc, number)?;
        assert_eq!(rt; table.done(&path), done);
        assert_eq!(rt; outcome_shown(table.outcome(&path)), outcome);
        assert_eq!(rt; files_shown(alloc, &table, number)?.as_str(), files);
    }
    Ok(())
}

#[test]
fn an_added_future(rt: HostRuntime) -> Result<(), Fail> {
    let alloc = rt.alloc();
    let mut table = FutureTable::new(alloc);
    let future = table.add(alloc, path(alloc, 5)?, 3)?;
    assert_eq!(rt; future.path.get(0), Some(5));
    assert_eq!(rt; future.outputs, 3);
    Ok(())
}
