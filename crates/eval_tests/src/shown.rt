//! What bodies give, as text.

use app_eval::end_alone;
use app_index::Apps;
use app_script::parse::parse;
use body_program::program;
use flow_base::{Ended, Exception, FileOut, Items, Names, Text, Value};
use run_report::lines::print_exception;
use run_report::value::{print_file, print_value};
use script_tree::tree::AppDef;
use sqlite_items::Items as ListOf;
use std::alloc::{AllocError, Global};
use std::sync::Arc;
use std::test::Fail;
use text_writer::Writer;

pub fn text(alloc: Global, bytes: &str) -> Result<Text, AllocError> {
    let mut text = Text::new(alloc);
    for byte in bytes.as_bytes() {
        if *byte == b'\n' || (*byte >= b' ' && *byte <= b'~') {
            text.push(*byte)?;
        }
    }
    Ok(text)
}

pub fn numbers(alloc: Global, numbers: &[i64]) -> Result<Items, AllocError> {
    let mut items = ListOf::new(alloc);
    for number in numbers {
        items.push(Value::Int(*number))?;
    }
    Ok(items)
}

/// `exception NAME`, the value, or the value and its files.
pub fn print_ended(writer: &mut Writer, ended: &Ended) -> Result<(), AllocError> {
    match ended {
        Ended::Raised(exception) => print_raised(writer, exception),
        Ended::Value { value, files } => {
            print_value(writer, value)?;
            print_files(writer, files.as_slice())
        }
    }
}

fn print_raised(writer: &mut Writer, exception: &Exception) -> Result<(), AllocError> {
    writer.add(b"exception ")?;
    print_exception(writer, exception)
}

fn print_files(writer: &mut Writer, files: &[FileOut]) -> Result<(), AllocError> {
    for file in files {
        writer.add(b" and ")?;
        print_file(writer, &file.name, &file.content)?;
    }
    Ok(())
}

/// How a plain app ends, which need not keep the static rules.
fn end(alloc: Global, app: &AppDef, arguments: &Items, names: &Names) -> Result<Ended, AllocError> {
    let none = Apps::of(alloc, &[])?;
    let program = program(alloc, &none, app.parameters.as_slice(), &app.body)?;
    end_alone(alloc, Arc::new(alloc, program)?, arguments, names)
}

/// What the first app of a script gives.
pub fn given(
    alloc: Global,
    script: &str,
    arguments: &Items,
    names: &Names,
) -> Result<String, Fail> {
    let script = parse(alloc, script.as_bytes())?;
    let mut writer = Writer::new(alloc);
    if let Some(app) = script.apps().first() {
        let ended = end(alloc, app, arguments, names)?;
        print_ended(&mut writer, &ended)?;
    }
    Ok(String::from_utf8(writer.into_bytes())?)
}

/// What a body with the parameters a and b gives for 2 and 3.
pub fn body(alloc: Global, statements: &str) -> Result<String, Fail> {
    let script = format!(in alloc; "app f(a, b) {{ {statements} }} main {{ }}")?;
    given(
        alloc,
        script.as_str(),
        &numbers(alloc, &[2, 3])?,
        &ListOf::new(alloc),
    )
}

/// What a body with one output, of the name `o`, gives.
pub fn writing(alloc: Global, statements: &str) -> Result<String, Fail> {
    let script = format!(in alloc; "app f() outputs 1 {{ {statements} }} main {{ }}")?;
    let mut names = ListOf::new(alloc);
    names.push(text(alloc, "o")?)?;
    given(alloc, script.as_str(), &ListOf::new(alloc), &names)
}

pub fn expression(alloc: Global, expression: &str) -> Result<String, Fail> {
    let statement = format!(in alloc; "return {expression};")?;
    body(alloc, statement.as_str())
}
