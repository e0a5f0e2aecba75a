//! The text of logs.

use crate::{Entries, Entry, print_log};
use flow_base::{Path, Text};
use std::alloc::{AllocError, Global};
use std::test::Fail;
use task_record::Status;

// An entry of a task whose path has one number.
#[derive(Clone, Copy)]
enum Row {
    Submit(u32),
    Launch(u32),
    Start(u32),
    Ended(u32),
    Settled(u32),
    End,
}

fn task(alloc: Global, number: u32) -> Result<Path, AllocError> {
    let mut path = Path::new(alloc);
    path.push(number)?;
    Ok(path)
}

fn entry(alloc: Global, row: Row) -> Result<Entry, AllocError> {
    match row {
        Row::Submit(number) => Ok(Entry::Submit {
            path: task(alloc, number)?,
            app: Text::of(alloc, "add")?,
        }),
        Row::Launch(number) => Ok(Entry::Launch {
            path: task(alloc, number)?,
            attempt: 1,
        }),
        Row::Start(number) => Ok(Entry::Start {
            path: task(alloc, number)?,
            attempt: 1,
            manager: 1,
        }),
        Row::Ended(number) => Ok(Entry::Ended {
            path: task(alloc, number)?,
            attempt: 1,
            manager: 1,
            ended: Text::of(alloc, "value")?,
        }),
        Row::Settled(number) => Ok(Entry::Settled {
            path: task(alloc, number)?,
            status: Status::ExecDone,
        }),
        Row::End => Ok(Entry::End),
    }
}

fn entries(alloc: Global, rows: &[Row]) -> Result<Entries, AllocError> {
    let mut entries = Entries::new(alloc);
    for row in rows {
        entries.push(entry(alloc, *row)?)?;
    }
    Ok(entries)
}

fn printed(alloc: Global, entries: &Entries) -> Result<String, Fail> {
    Ok(String::from_utf8(print_log(alloc, entries)?)?)
}

// Each of two tasks is submitted, and then each runs.
const TWO_TASKS: [Row; 11] = [
    Row::Submit(1),
    Row::Submit(2),
    Row::Launch(1),
    Row::Start(1),
    Row::Ended(1),
    Row::Settled(1),
    Row::Launch(2),
    Row::Start(2),
    Row::Ended(2),
    Row::Settled(2),
    Row::End,
];

const TWO_TASKS_PRINTED: &str = "submit 1 add
submit 2 add
launch 1 try 1
start 1 try 1 manager 1
ended 1 try 1 manager 1 value
settled 1 exec_done
launch 2 try 1
start 2 try 1 manager 1
ended 2 try 1 manager 1 value
settled 2 exec_done
end
";

#[test]
fn the_log_of_two_tasks(rt: HostRuntime) -> Result<(), Fail> {
    let entries = entries(rt.alloc(), &TWO_TASKS)?;
    assert_eq!(rt; printed(rt.alloc(), &entries)?.as_str(), TWO_TASKS_PRINTED);
    Ok(())
}

fn call_of_a_join(alloc: Global) -> Result<Path, AllocError> {
    let mut path = task(alloc, 1)?;
    path.push(12)?;
    Ok(path)
}

// The third attempt of a call of a join, which a second manager ran.
fn failed_attempt(alloc: Global) -> Result<Entry, AllocError> {
    Ok(Entry::Ended {
        path: call_of_a_join(alloc)?,
        attempt: 3,
        manager: 2,
        ended: Text::of(alloc, "ZeroDivisionError")?,
    })
}

fn failed_call(alloc: Global) -> Result<Entries, AllocError> {
    let mut entries = Entries::new(alloc);
    entries.push(failed_attempt(alloc)?)?;
    entries.push(Entry::Settled {
        path: call_of_a_join(alloc)?,
        status: Status::Failed,
    })?;
    Ok(entries)
}

const FAILED_CALL: &str = "ended 1.12 try 3 manager 2 ZeroDivisionError
settled 1.12 failed
";

fn join_and_its_call(alloc: Global) -> Result<Entries, AllocError> {
    let mut entries = Entries::new(alloc);
    entries.push(Entry::JoinRun {
        path: task(alloc, 1)?,
    })?;
    entries.push(Entry::Submit {
        path: call_of_a_join(alloc)?,
        app: Text::of(alloc, "add")?,
    })?;
    entries.push(Entry::JoinRun {
        path: call_of_a_join(alloc)?,
    })?;
    Ok(entries)
}

// The call is a join too.
const JOIN_AND_ITS_CALL: &str = "join 1
submit 1.12 add
join 1.12
";

#[test]
fn the_log_of_a_join_and_its_call(rt: HostRuntime) -> Result<(), Fail> {
    let entries = join_and_its_call(rt.alloc())?;
    assert_eq!(rt; printed(rt.alloc(), &entries)?.as_str(), JOIN_AND_ITS_CALL);
    Ok(())
}

#[test]
fn the_log_of_a_failed_call(rt: HostRuntime) -> Result<(), Fail> {
    let entries = failed_call(rt.alloc())?;
    assert_eq!(rt; printed(rt.alloc(), &entries)?.as_str(), FAILED_CALL);
    Ok(())
}
