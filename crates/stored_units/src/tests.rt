//! Units of samples.

use crate::{call_units, outcome_units};
use flow_base::{Exception, FileOut, Files, Items, Names, Outcome, Path, Text, Value};
use std::alloc::{AllocError, Global};
use std::test::Fail;

#[derive(Clone, Copy)]
enum Sample {
    // an Int, a text of 3 bytes, a list of two Ints and a future, with a name of 2 bytes
    Call,
    // an Int
    Value,
    // a text of 3 bytes, with a file of a name of 2 bytes and a content of 5
    ValueWithFile,
    Exception,
}

fn two_ints(alloc: Global) -> Result<Items, AllocError> {
    let mut items = Items::new(alloc);
    items.push(Value::Int(-1))?;
    items.push(Value::Int(1_000_000))?;
    Ok(items)
}

fn future(alloc: Global) -> Result<Value, AllocError> {
    let mut path = Path::new(alloc);
    path.push(70)?;
    Ok(Value::Future { path, outputs: 2 })
}

fn call(alloc: Global) -> Result<u64, AllocError> {
    let mut arguments = Items::new(alloc);
    arguments.push(Value::Int(100))?;
    arguments.push(Value::Text(Text::of(alloc, "abc")?))?;
    arguments.push(Value::List(two_ints(alloc)?))?;
    arguments.push(future(alloc)?)?;
    let mut names = Names::new(alloc);
    names.push(Text::of(alloc, "ou")?)?;
    Ok(call_units(arguments.as_slice(), names.as_slice()))
}

fn value_with_file(alloc: Global) -> Result<Outcome, AllocError> {
    let mut files = Files::new(alloc);
    files.push(FileOut {
        name: Text::of(alloc, "ou")?,
        content: Text::of(alloc, "lines")?,
    })?;
    let value = Value::Text(Text::of(alloc, "abc")?);
    Ok(Outcome::Value { value, files })
}

fn units(alloc: Global, sample: Sample) -> Result<u64, AllocError> {
    match sample {
        Sample::Call => call(alloc),
        Sample::Value => Ok(outcome_units(&Outcome::Value {
            value: Value::Int(5),
            files: Files::new(alloc),
        })),
        Sample::ValueWithFile => Ok(outcome_units(&value_with_file(alloc)?)),
        Sample::Exception => Ok(outcome_units(&Outcome::Failed(Exception::IndexError))),
    }
}

#[test]
fn calls_and_outcomes_weigh_their_parts(rt: HostRuntime) -> Result<(), Fail> {
    for (sample, want) in [
        (Sample::Call, 1 + 4 + 3 + 1 + 3),
        (Sample::Value, 1),
        (Sample::ValueWithFile, 4 + 8),
        (Sample::Exception, 0),
    ] {
        assert_eq!(rt; units(rt.alloc(), sample)?, want);
    }
    Ok(())
}
