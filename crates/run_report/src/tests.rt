//! The texts of the report.

use crate::lines::print_exception;
use crate::value::print_value;
use crate::{head, report};
use event_log::{Entries, Entry};
use flow_base::{
    Ending, Evaluation, Exception, FileOut, Files, Items, Outcome, Path, Paths, TaskEnd, TaskEnds,
    Text, Value,
};
use std::alloc::{AllocError, Global};
use std::test::Fail;
use text_writer::Writer;

// Leaves out what no text holds.
fn text(alloc: Global, bytes: &str) -> Result<Text, AllocError> {
    let mut text = Text::new(alloc);
    for byte in bytes.as_bytes() {
        if *byte == b'\n' || (*byte >= b' ' && *byte <= b'~') {
            text.push(*byte)?;
        }
    }
    Ok(text)
}

fn path(alloc: Global, numbers: &[u32]) -> Result<Path, AllocError> {
    let mut path = Path::new(alloc);
    for number in numbers {
        path.push(*number)?;
    }
    Ok(path)
}

fn file(alloc: Global, name: &str, content: &str) -> Result<FileOut, AllocError> {
    Ok(FileOut {
        name: text(alloc, name)?,
        content: text(alloc, content)?,
    })
}

fn numbers(alloc: Global, numbers: &[i64]) -> Result<Items, AllocError> {
    let mut items = Items::new(alloc);
    for number in numbers {
        items.push(Value::Int(*number))?;
    }
    Ok(items)
}

fn shown(alloc: Global, value: &Value) -> Result<String, Fail> {
    let mut writer = Writer::new(alloc);
    print_value(&mut writer, value)?;
    Ok(String::from_utf8(writer.into_bytes())?)
}

fn exception_shown(alloc: Global, exception: &Exception) -> Result<String, Fail> {
    let mut writer = Writer::new(alloc);
    print_exception(&mut writer, exception)?;
    Ok(String::from_utf8(writer.into_bytes())?)
}

fn spelled(alloc: Global) -> Result<Value, AllocError> {
    Ok(Value::Text(text(alloc, "a \"b\" \\ c\nd")?))
}

fn nested(alloc: Global) -> Result<Value, AllocError> {
    let mut items = numbers(alloc, &[1, -20])?;
    items.push(Value::List(Items::new(alloc)))?;
    items.push(Value::Nothing)?;
    Ok(Value::List(items))
}

fn file_value(alloc: Global) -> Result<Value, AllocError> {
    let FileOut { name, content } = file(alloc, "f", "x\n")?;
    Ok(Value::File { name, content })
}

fn future(alloc: Global) -> Result<Value, AllocError> {
    Ok(Value::Future {
        path: path(alloc, &[1, 12])?,
        outputs: 2,
    })
}

fn output(alloc: Global) -> Result<Value, AllocError> {
    Ok(Value::Output {
        path: path(alloc, &[3])?,
        index: 1,
    })
}

#[test]
fn values(rt: HostRuntime) -> Result<(), Fail> {
    let alloc = rt.alloc();
    for (value, text) in [
        (spelled(alloc)?, r#""a \"b\" \\ c\nd""#),
        (nested(alloc)?, "[1, -20, [], nothing]"),
        (file_value(alloc)?, r#"file("f", "x\n")"#),
        (future(alloc)?, "future 1.12"),
        (output(alloc)?, "output 3 1"),
    ] {
        assert_eq!(rt; shown(alloc, &value)?.as_str(), text);
    }
    Ok(())
}

fn paths(alloc: Global, numbers: &[u32]) -> Result<Paths, AllocError> {
    let mut paths = Paths::new(alloc);
    for number in numbers {
        paths.push(path(alloc, &[*number, 1])?)?;
    }
    Ok(paths)
}

#[test]
fn exceptions(rt: HostRuntime) -> Result<(), Fail> {
    let alloc = rt.alloc();
    let raised = text(alloc, "no \"x\"")?;
    let failed = paths(alloc, &[2, 1])?;
    let joined = paths(alloc, &[3])?;
    for (exception, text) in [
        (Exception::MissingOutputs, "MissingOutputs"),
        (Exception::AppError(raised), r#"AppError "no \"x\"""#),
        (
            Exception::DependencyError(failed),
            "DependencyError 2.1 1.1",
        ),
        (Exception::JoinError(joined), "JoinError 3.1"),
        (Exception::ManagerLost(2), "ManagerLost 2"),
    ] {
        assert_eq!(rt; exception_shown(alloc, &exception)?.as_str(), text);
    }
    Ok(())
}

fn halved(alloc: Global) -> Result<TaskEnd, AllocError> {
    Ok(TaskEnd {
        path: path(alloc, &[1])?,
        app: text(alloc, "halve")?,
        outcome: Outcome::Value {
            value: Value::List(numbers(alloc, &[10, 26])?),
            files: Files::new(alloc),
        },
    })
}

fn two_files(alloc: Global) -> Result<Files, AllocError> {
    let mut files = Files::new(alloc);
    files.push(file(alloc, "a", "")?)?;
    files.push(file(alloc, "b", "1")?)?;
    Ok(files)
}

fn written(alloc: Global) -> Result<TaskEnd, AllocError> {
    Ok(TaskEnd {
        path: path(alloc, &[1, 1])?,
        app: text(alloc, "two")?,
        outcome: Outcome::Value {
            value: Value::Nothing,
            files: two_files(alloc)?,
        },
    })
}

fn divided(alloc: Global) -> Result<TaskEnd, AllocError> {
    Ok(TaskEnd {
        path: path(alloc, &[2])?,
        app: text(alloc, "div")?,
        outcome: Outcome::Failed(Exception::ZeroDivisionError),
    })
}

fn tasks(alloc: Global) -> Result<TaskEnds, AllocError> {
    let mut tasks = TaskEnds::new(alloc);
    tasks.push(halved(alloc)?)?;
    tasks.push(written(alloc)?)?;
    tasks.push(divided(alloc)?)?;
    Ok(tasks)
}

fn head_shown(alloc: Global, evaluation: &Evaluation) -> Result<String, Fail> {
    Ok(String::from_utf8(head(alloc, evaluation)?)?)
}

const HEAD: &str = r#"print 13
print 3
task 1 halve value [10, 26]
task 1.1 two value nothing outputs [file("a", ""), file("b", "1")]
task 2 div exception ZeroDivisionError
main raised ZeroDivisionError
"#;

#[test]
fn a_whole_head(rt: HostRuntime) -> Result<(), Fail> {
    let alloc = rt.alloc();
    let evaluation = Evaluation {
        printed: numbers(alloc, &[13, 3])?,
        tasks: tasks(alloc)?,
        main: Ending::Raised(Exception::ZeroDivisionError),
    };
    assert_eq!(rt; head_shown(alloc, &evaluation)?.as_str(), HEAD);
    Ok(())
}

#[test]
fn the_head_of_an_empty_main(rt: HostRuntime) -> Result<(), Fail> {
    let alloc = rt.alloc();
    let evaluation = Evaluation {
        printed: Items::new(alloc),
        tasks: TaskEnds::new(alloc),
        main: Ending::Ended,
    };
    assert_eq!(rt; head_shown(alloc, &evaluation)?.as_str(), "main ended\n");
    Ok(())
}

fn halved_alone(alloc: Global) -> Result<Evaluation, AllocError> {
    let mut tasks = TaskEnds::new(alloc);
    tasks.push(halved(alloc)?)?;
    Ok(Evaluation {
        printed: numbers(alloc, &[13])?,
        tasks,
        main: Ending::Ended,
    })
}

fn two_entries(alloc: Global) -> Result<Entries, AllocError> {
    let mut entries = Entries::new(alloc);
    entries.push(Entry::Ended {
        path: path(alloc, &[1])?,
        attempt: 2,
        manager: 3,
        ended: text(alloc, "value")?,
    })?;
    entries.push(Entry::End)?;
    Ok(entries)
}

fn report_shown(alloc: Global, evaluation: &Evaluation, entries: &Entries) -> Result<String, Fail> {
    Ok(String::from_utf8(report(alloc, evaluation, entries.as_slice())?)?)
}

const REPORT: &str = "print 13
task 1 halve value [10, 26]
main ended
log 2
ended 1 try 2 manager 3 value
end
";

#[test]
fn a_whole_report(rt: HostRuntime) -> Result<(), Fail> {
    let alloc = rt.alloc();
    let evaluation = halved_alone(alloc)?;
    let entries = two_entries(alloc)?;
    assert_eq!(rt;
        report_shown(alloc, &evaluation, &entries)?.as_str(),
        REPORT
    );
    Ok(())
}
