//! The text of exceptions and tasks, and the report before its log.

ghost use Rattle.std.specs.Prelude.{◌≡◌, ◌++◌, IfOk, OnOk, flat_map, codes};
ghost use Rattle.text_writer.specs.Written.{behind};
ghost use Rattle.run_report.specs.Shown.{exception_detail, exception_text, paths_text, outcome_text, files_text, file_values, task_line, print_line, raised_line, ending_line, head_text};

use crate::value::{print_file, print_value};
use flow_base::{Ending, Evaluation, Exception, FileOut, Outcome, Path, TaskEnd, Value};
use std::alloc::{AllocError, Global};
use text_writer::Writer;

// Each behind a blank.
fn print_paths(writer: &mut Writer, paths: &[Path]) -> Result<(), AllocError>
    ensures { OnOk result (writer.new ≡ writer.old ++ paths_text paths.now) }
{
    for path in paths {
        writer.add(b" ")?;
        writer.path(path)?;
    }
    Ok(())
}

fn print_exception_detail(writer: &mut Writer, exception: &Exception) -> Result<(), AllocError>
    ensures { OnOk result (writer.new ≡ writer.old ++ exception_detail exception.now) }
{
    match exception {
        Exception::AppError(text) => {
            writer.add(b" ")?;
            writer.quote(text)
        }
        Exception::DependencyError(failed) => print_paths(writer, failed.as_slice()),
        Exception::JoinError(failed) => print_paths(writer, failed.as_slice()),
        Exception::ManagerLost(manager) => {
            writer.add(b" ")?;
            writer.number(*manager)
        }
        _ => Ok(()),
    }
}

/// Adds an exception: its name, and what it carries behind a blank each.
#[tactic(auto, unfolding(crate::specs::Shown::exception_text))]
pub fn print_exception(writer: &mut Writer, exception: &Exception) -> Result<(), AllocError>
    ensures { OnOk result (writer.new ≡ writer.old ++ exception_text exception.now) }
{
    writer.add(exception.name().as_bytes())?;
    print_exception_detail(writer, exception)
}

// Each behind a comma.
fn print_further_files(writer: &mut Writer, files: &[FileOut]) -> Result<(), AllocError>
    ensures { OnOk result (writer.new ≡ writer.old ++ behind (codes ", ") (file_values files.now)) }
{
    for file in files {
        writer.add(b", ")?;
        print_file(writer, &file.name, &file.content)?;
    }
    Ok(())
}

// The files of a task whose app has outputs.
fn print_outputs(writer: &mut Writer, files: &[FileOut]) -> Result<(), AllocError>
    ensures { OnOk result (writer.new ≡ writer.old ++ files_text files.now) }
{
    match files.split_first() {
        None => Ok(()),
        Some((first, rest)) => {
            writer.add(b" outputs [")?;
            print_file(writer, &first.name, &first.content)?;
            print_further_files(writer, rest)?;
            writer.add(b"]")
        }
    }
}

fn print_outcome(writer: &mut Writer, outcome: &Outcome) -> Result<(), AllocError>
    ensures { OnOk result (writer.new ≡ writer.old ++ outcome_text outcome.now) }
{
    match outcome {
        Outcome::Value { value, files } => {
            writer.add(b"value ")?;
            print_value(writer, value)?;
            print_outputs(writer, files.as_slice())
        }
        Outcome::Failed(exception) => {
            writer.add(b"exception ")?;
            print_exception(writer, exception)
        }
    }
}

// Adds the line of a task.
fn print_task(writer: &mut Writer, task: &TaskEnd) -> Result<(), AllocError>
    ensures { OnOk result (writer.new ≡ writer.old ++ task_line task.now) }
{
    writer.add(b"task ")?;
    writer.path(&task.path)?;
    writer.add(b" ")?;
    writer.add(task.app.as_slice())?;
    writer.add(b" ")?;
    print_outcome(writer, &task.outcome)?;
    writer.add(b"\n")
}

// Adds the line of a printed value.
fn print_printed(writer: &mut Writer, value: &Value) -> Result<(), AllocError>
    ensures { OnOk result (writer.new ≡ writer.old ++ print_line value.now) }
{
    writer.add(b"print ")?;
    print_value(writer, value)?;
    writer.add(b"\n")
}

#[tactic(auto, unfolding(crate::specs::Shown::raised_line))]
fn print_raised(writer: &mut Writer, exception: &Exception) -> Result<(), AllocError>
    ensures { OnOk result (writer.new ≡ writer.old ++ raised_line exception.now) }
{
    writer.add(b"raised ")?;
    print_exception(writer, exception)?;
    writer.add(b"\n")
}

// Adds the line of how main ended.
fn print_ending(writer: &mut Writer, main: &Ending) -> Result<(), AllocError>
    ensures { OnOk result (writer.new ≡ writer.old ++ ending_line main.now) }
{
    match main {
        Ending::Ended => writer.add(b"main ended\n"),
        Ending::Raised(exception) => {
            writer.add(b"main ")?;
            print_raised(writer, exception)
        }
    }
}

fn print_all_printed(writer: &mut Writer, values: &[Value]) -> Result<(), AllocError>
    ensures { OnOk result (writer.new ≡ writer.old ++ flat_map print_line values.now) }
{
    for value in values {
        print_printed(writer, value)?;
    }
    Ok(())
}

fn print_tasks(writer: &mut Writer, tasks: &[TaskEnd]) -> Result<(), AllocError>
    ensures { OnOk result (writer.new ≡ writer.old ++ flat_map task_line tasks.now) }
{
    for task in tasks {
        print_task(writer, task)?;
    }
    Ok(())
}

/// Adds the report before its log: a line for each printed value and each task, and how main ended.
pub(crate) fn print_head(writer: &mut Writer, evaluation: &Evaluation) -> Result<(), AllocError>
    ensures { OnOk result (writer.new ≡ writer.old ++ head_text evaluation.now) }
{
    print_all_printed(writer, evaluation.printed.as_slice())?;
    print_tasks(writer, evaluation.tasks.as_slice())?;
    print_ending(writer, &evaluation.main)
}

/// The report before its log.
pub fn head(alloc: Global, evaluation: &Evaluation) -> Result<Vec<u8>, AllocError>
    ensures { IfOk result (λ text. text.items ≡ head_text evaluation.now) }
{
    let mut writer = Writer::new(alloc);
    print_head(&mut writer, evaluation)?;
    Ok(writer.into_bytes())
}
