//! Verdicts on logs, each made from a legal one.

use crate::verdict::verdict;
use event_log::{Entries, Entry};
use flow_base::{Items, Names, Path, Paths, Text, Value};
use history_laws::{Breach, Expected, Law, MainEvent, Retries, RetryCost, Table};
use memo_table::Key;
use sqlite_items::Items as ListOf;
use std::alloc::{AllocError, Global};
use std::sync::Arc;
use std::test::Fail;
use task_record::Status;

// A word of an app or of how an attempt ended.
#[derive(Clone, Copy)]
enum EntryKind {
    Add,
    Both,
    Value,
    ZeroDivisionError,
}

// The numbers of a task's path.
type Task = &'static [u32];

// An entry: the task, and numbers for the attempt and the manager.
#[derive(Clone, Copy)]
enum Line {
    Submit(Task, EntryKind),
    JoinRun(Task),
    MemoHit(Task),
    Launch(Task, u32),
    Start(Task, u32, u32),
    Ended(Task, u32, u32, EntryKind),
    Stored(Task),
    Settled(Task, Status),
    End,
}

fn text(alloc: Global, word: EntryKind) -> Result<Text, AllocError> {
    match word {
        EntryKind::Add => Text::of(alloc, "add"),
        EntryKind::Both => Text::of(alloc, "both"),
        EntryKind::Value => Text::of(alloc, "value"),
        EntryKind::ZeroDivisionError => Text::of(alloc, "ZeroDivisionError"),
    }
}

fn path(alloc: Global, task: &[u32]) -> Result<Path, AllocError> {
    let mut path = Path::new(alloc);
    for number in task {
        path.push(*number)?;
    }
    Ok(path)
}

fn entry(alloc: Global, line: Line) -> Result<Entry, AllocError> {
    match line {
        Line::Submit(task, app) => Ok(Entry::Submit {
            path: path(alloc, task)?,
            app: text(alloc, app)?,
        }),
        Line::JoinRun(task) => Ok(Entry::JoinRun {
            path: path(alloc, task)?,
        }),
        Line::MemoHit(task) => Ok(Entry::MemoHit {
            path: path(alloc, task)?,
        }),
        Line::Launch(task, attempt) => Ok(Entry::Launch {
            path: path(alloc, task)?,
            attempt,
        }),
        Line::Start(task, attempt, manager) => Ok(Entry::Start {
            path: path(alloc, task)?,
            attempt,
            manager,
        }),
        Line::Ended(task, attempt, manager, ended) => Ok(Entry::Ended {
            path: path(alloc, task)?,
            attempt,
            manager,
            ended: text(alloc, ended)?,
        }),
        Line::Stored(task) => Ok(Entry::Stored {
            path: path(alloc, task)?,
        }),
        Line::Settled(task, status) => Ok(Entry::Settled {
            path: path(alloc, task)?,
            status,
        }),
        Line::End => Ok(Entry::End),
    }
}

fn add_all(alloc: Global, entries: &mut Entries, lines: &[Line]) -> Result<(), AllocError> {
    for line in lines {
        entries.push(entry(alloc, *line)?)?;
    }
    Ok(())
}

// How a task gets its outcome.
#[derive(Clone, Copy)]
enum Body {
    // by its inputs, without its body
    Skipped,
    // by attempts of the app `add`, which end so
    Runs(EntryKind),
    // by attempts of the same app, which is cached, with this argument
    Cached(EntryKind, i64),
    // by so many calls of the body of the app `both`, which returns the futures of these tasks
    Joins(u32, &'static [Task]),
}

// A task by its row: its path, its input where it has one, its body, and its state.
#[derive(Clone, Copy)]
struct Row {
    task: Task,
    input: Option<Task>,
    body: Body,
    status: Status,
}

fn inputs(alloc: Global, input: Option<Task>) -> Result<Paths, AllocError> {
    let mut inputs = Paths::new(alloc);
    if let Some(task) = input {
        inputs.push(path(alloc, task)?)?;
    }
    Ok(inputs)
}

fn app(alloc: Global, body: Body) -> Result<Text, AllocError> {
    match body {
        Body::Joins(_, _) => text(alloc, EntryKind::Both),
        _ => text(alloc, EntryKind::Add),
    }
}

fn kind(alloc: Global, body: Body) -> Result<Text, AllocError> {
    match body {
        Body::Runs(kind) | Body::Cached(kind, _) => text(alloc, kind),
        _ => Text::of(alloc, ""),
    }
}

fn calls(body: Body) -> u32 {
    match body {
        Body::Joins(calls, _) => calls,
        _ => 0,
    }
}

fn awaits(alloc: Global, body: Body) -> Result<Paths, AllocError> {
    let mut awaits = Paths::new(alloc);
    if let Body::Joins(_, tasks) = body {
        for task in tasks {
            awaits.push(path(alloc, task)?)?;
        }
    }
    Ok(awaits)
}

// The key of the cached app with this argument.
fn key_of(alloc: Global, argument: i64) -> Result<Key, AllocError> {
    let app = Arc::new(alloc, text(alloc, EntryKind::Add)?)?;
    let mut arguments = Items::new(alloc);
    arguments.push(Value::Int(argument))?;
    Key::new(alloc, app, arguments, Names::new(alloc))
}

fn key(alloc: Global, body: Body) -> Result<Option<Key>, AllocError> {
    match body {
        Body::Cached(_, argument) => Ok(Some(key_of(alloc, argument)?)),
        _ => Ok(None),
    }
}

fn expected(alloc: Global, row: Row) -> Result<Expected, AllocError> {
    Ok(Expected {
        path: path(alloc, row.task)?,
        app: app(alloc, row.body)?,
        inputs: inputs(alloc, row.input)?,
        runs: matches!(row.body, Body::Runs(_) | Body::Cached(_, _)),
        joins: matches!(row.body, Body::Joins(_, _)),
        calls: calls(row.body),
        awaits: awaits(alloc, row.body)?,
        kind: kind(alloc, row.body)?,
        key: key(alloc, row.body)?,
        status: row.status,
    })
}

// Main's acts: a call, or the task that it waits for.
fn acts(alloc: Global, main: &[Option<u32>]) -> Result<ListOf<MainEvent>, AllocError> {
    let mut acts = ListOf::new(alloc);
    for waited in main {
        acts.push(match waited {
            Some(task) => MainEvent::Wait(path(alloc, &[*task])?),
            None => MainEvent::Call,
        })?;
    }
    Ok(acts)
}

fn table(alloc: Global, rows: &[Row], main: &[Option<u32>]) -> Result<Table, AllocError> {
    let mut tasks = ListOf::new(alloc);
    for row in rows {
        tasks.push(expected(alloc, *row)?)?;
    }
    Ok(Table {
        tasks,
        acts: acts(alloc, main)?,
    })
}

// The costs of a division by 0 where it is given, and the limit.
fn retries(alloc: Global, cost: Option<u32>, limit: u32) -> Result<Retries, AllocError> {
    let mut costs = ListOf::new(alloc);
    if let Some(cost) = cost {
        costs.push(RetryCost {
            name: text(alloc, EntryKind::ZeroDivisionError)?,
            cost,
        })?;
    }
    Ok(Retries { costs, limit })
}

// app add(a, b) { return a + b; } main { let x = call add(1, 2); let y = call add(x, 10); print result(y); }
const ROWS: [Row; 2] = [
    Row {
        task: &[1],
        input: None,
        body: Body::Runs(EntryKind::Value),
        status: Status::ExecDone,
    },
    Row {
        task: &[2],
        input: Some(&[1]),
        body: Body::Runs(EntryKind::Value),
        status: Status::ExecDone,
    },
];

const MAIN: [Option<u32>; 3] = [None, None, Some(2)];

const LEGAL: [Line; 11] = [
    Line::Submit(&[1], EntryKind::Add),
    Line::Submit(&[2], EntryKind::Add),
    Line::Launch(&[1], 1),
    Line::Start(&[1], 1, 1),
    Line::Ended(&[1], 1, 1, EntryKind::Value),
    Line::Settled(&[1], Status::ExecDone),
    Line::Launch(&[2], 1),
    Line::Start(&[2], 1, 1),
    Line::Ended(&[2], 1, 1, EntryKind::Value),
    Line::Settled(&[2], Status::ExecDone),
    Line::End,
];

// A legal log with a change: so many of its first entries, then these lines, and then what comes behind
// so many of its first entries.
fn changed(
    alloc: Global,
    legal: &[Line],
    first: usize,
    lines: &[Line],
    skipped: usize,
) -> Result<Entries, AllocError> {
    let mut entries = Entries::new(alloc);
    for line in legal.iter().take(first) {
        entries.push(entry(alloc, *line)?)?;
    }
    add_all(alloc, &mut entries, lines)?;
    for line in legal.iter().skip(skipped) {
        entries.push(entry(alloc, *line)?)?;
    }
    Ok(entries)
}

// A change of a legal log, with the law that it breaks, and the entry that breaks it.
type Change = (usize, &'static [Line], usize, Law, usize);

const BROKEN: [Change; 34] = [
    // a second settling
    (
        6,
        &[Line::Settled(&[1], Status::ExecDone)],
        6,
        Law::Settling,
        7,
    ),
    // another state
    (
        5,
        &[Line::Settled(&[1], Status::Failed)],
        6,
        Law::Settling,
        6,
    ),
    // an input that hasn't settled
    (5, &[], 6, Law::Settling, 9),
    // a settling of what isn't submitted
    (1, &[], 2, Law::Settling, 9),
    // the second call first
    (
        0,
        &[
            Line::Submit(&[2], EntryKind::Add),
            Line::Submit(&[1], EntryKind::Add),
        ],
        2,
        Law::Settling,
        1,
    ),
    // a second submission
    (
        1,
        &[Line::Submit(&[1], EntryKind::Add)],
        1,
        Law::Settling,
        2,
    ),
    // another app
    (
        0,
        &[Line::Submit(&[1], EntryKind::Value)],
        1,
        Law::Settling,
        1,
    ),
    // a third call
    (
        2,
        &[Line::Submit(&[3], EntryKind::Add)],
        2,
        Law::Settling,
        3,
    ),
    // the end with a task unsettled
    (9, &[], 10, Law::Settling, 10),
    // an entry behind the end
    (11, &[Line::Launch(&[1], 1)], 11, Law::Settling, 12),
    // before the submission
    (0, &[Line::Launch(&[1], 1)], 0, Law::Launch, 1),
    // no task
    (2, &[Line::Launch(&[3], 1)], 2, Law::Launch, 3),
    // before the input has settled
    (
        5,
        &[Line::Launch(&[2], 1), Line::Settled(&[1], Status::ExecDone)],
        7,
        Law::Launch,
        6,
    ),
    // after the settling
    (6, &[Line::Launch(&[1], 2)], 6, Law::Launch, 7),
    // a value of an app that isn't cached is stored
    (5, &[Line::Stored(&[1])], 5, Law::Launch, 6),
    // a value from the memo for an app that isn't cached
    (
        2,
        &[Line::MemoHit(&[1]), Line::Settled(&[1], Status::MemoDone)],
        6,
        Law::Launch,
        3,
    ),
    // the second attempt first
    (2, &[Line::Launch(&[1], 2)], 3, Law::Attempt, 3),
    // a second attempt while the first one waits
    (3, &[Line::Launch(&[1], 2)], 3, Law::Attempt, 4),
    // the end of an attempt that wasn't launched
    (2, &[], 3, Law::Attempt, 4),
    // a second end behind a second start
    (
        5,
        &[
            Line::Start(&[1], 1, 1),
            Line::Ended(&[1], 1, 1, EntryKind::Value),
        ],
        5,
        Law::Attempt,
        7,
    ),
    // another end of the body
    (
        4,
        &[Line::Ended(&[1], 1, 1, EntryKind::ZeroDivisionError)],
        5,
        Law::Attempt,
        5,
    ),
    // the end of another attempt
    (
        4,
        &[Line::Ended(&[1], 2, 1, EntryKind::Value)],
        5,
        Law::Attempt,
        5,
    ),
    // a second end
    (
        5,
        &[Line::Ended(&[1], 1, 1, EntryKind::Value)],
        5,
        Law::Attempt,
        6,
    ),
    // a settling while the attempt runs
    (4, &[], 5, Law::Attempt, 5),
    // a start at another manager
    (3, &[Line::Start(&[1], 1, 2)], 4, Law::Manager, 4),
    // a start of another attempt
    (3, &[Line::Start(&[1], 2, 1)], 4, Law::Manager, 4),
    // a second start
    (4, &[Line::Start(&[1], 1, 1)], 4, Law::Manager, 5),
    // a start before the launch
    (
        2,
        &[Line::Start(&[1], 1, 1), Line::Launch(&[1], 1)],
        4,
        Law::Manager,
        3,
    ),
    // a start of what has ended
    (5, &[Line::Start(&[1], 1, 1)], 5, Law::Manager, 6),
    // the end of what wasn't started
    (3, &[], 4, Law::Manager, 4),
    // an end at another manager
    (
        4,
        &[Line::Ended(&[1], 1, 2, EntryKind::Value)],
        5,
        Law::Manager,
        5,
    ),
    // no end
    (10, &[], 11, Law::Completeness, 11),
    // the first five entries
    (5, &[], 11, Law::Completeness, 6),
    // no entry
    (0, &[], 11, Law::Completeness, 1),
];

#[test]
fn the_log_of_two_calls_is_legal(rt: HostRuntime) -> Result<(), Fail> {
    let alloc = rt.alloc();
    let mut entries = Entries::new(alloc);
    add_all(alloc, &mut entries, &LEGAL)?;
    let table = table(alloc, &ROWS, &MAIN)?;
    let retries = retries(alloc, None, 0)?;
    assert_eq!(rt; verdict(&table, &retries, &entries), None);
    Ok(())
}

#[test]
fn each_change_breaks_its_law(rt: HostRuntime) -> Result<(), Fail> {
    let alloc = rt.alloc();
    let table = table(alloc, &ROWS, &MAIN)?;
    let retries = retries(alloc, None, 0)?;
    for (first, lines, skipped, law, entry) in BROKEN {
        let entries = changed(alloc, &LEGAL, first, lines, skipped)?;
        let found = verdict(&table, &retries, &entries);
        assert_eq!(rt; found, Some(Breach { law, entry }));
    }
    Ok(())
}

// Main waits for the first task before its second call.
const WAITING_MAIN: [Option<u32>; 4] = [None, Some(1), None, Some(2)];

const LATER_SUBMIT: [Line; 5] = [
    Line::Launch(&[1], 1),
    Line::Start(&[1], 1, 1),
    Line::Ended(&[1], 1, 1, EntryKind::Value),
    Line::Settled(&[1], Status::ExecDone),
    Line::Submit(&[2], EntryKind::Add),
];

#[test]
fn a_call_behind_a_wait_is_submitted_later(rt: HostRuntime) -> Result<(), Fail> {
    let alloc = rt.alloc();
    let table = table(alloc, &ROWS, &WAITING_MAIN)?;
    let retries = retries(alloc, None, 0)?;
    let law = Law::Settling;
    let early = changed(alloc, &LEGAL, 11, &[], 11)?;
    assert_eq!(rt;
        verdict(&table, &retries, &early),
        Some(Breach { law, entry: 2 })
    );
    let later = changed(alloc, &LEGAL, 1, &LATER_SUBMIT, 6)?;
    assert_eq!(rt; verdict(&table, &retries, &later), None);
    Ok(())
}

// The first task divides by 0 at each attempt, and the second one needs its value.
const FAILING_ROWS: [Row; 2] = [
    Row {
        task: &[1],
        input: None,
        body: Body::Runs(EntryKind::ZeroDivisionError),
        status: Status::Failed,
    },
    Row {
        task: &[2],
        input: Some(&[1]),
        body: Body::Skipped,
        status: Status::DepFail,
    },
];

const FAILING: [Line; 11] = [
    Line::Submit(&[1], EntryKind::Add),
    Line::Submit(&[2], EntryKind::Add),
    Line::Launch(&[1], 1),
    Line::Start(&[1], 1, 1),
    Line::Ended(&[1], 1, 1, EntryKind::ZeroDivisionError),
    Line::Launch(&[1], 2),
    Line::Start(&[1], 2, 1),
    Line::Ended(&[1], 2, 1, EntryKind::ZeroDivisionError),
    Line::Settled(&[1], Status::Failed),
    Line::Settled(&[2], Status::DepFail),
    Line::End,
];

// The cost of a division by 0, where it is given, and the limit, with the entry that breaks the law of
// attempts.
const LIMITS: [(Option<u32>, u32, Option<usize>); 6] = [
    (None, 100, None),
    (None, 99, Some(6)),
    (None, 199, None),
    (None, 200, Some(9)),
    (Some(50), 50, None),
    (Some(50), 100, Some(9)),
];

fn breach_of_attempts(entry: Option<usize>) -> Option<Breach> {
    let entry = entry?;
    Some(Breach {
        law: Law::Attempt,
        entry,
    })
}

#[test]
fn a_task_is_tried_again_while_its_costs_are_within_the_limit(rt: HostRuntime) -> Result<(), Fail> {
    let alloc = rt.alloc();
    let table = table(alloc, &FAILING_ROWS, &MAIN)?;
    let mut entries = Entries::new(alloc);
    add_all(alloc, &mut entries, &FAILING)?;
    for (cost, limit, entry) in LIMITS {
        let retries = retries(alloc, cost, limit)?;
        let found = verdict(&table, &retries, &entries);
        assert_eq!(rt; found, breach_of_attempts(entry));
    }
    Ok(())
}

// app add(a, b) { return a + b; } join app both(a) { return [call add(a, 1), call add(a, 2)]; }
// main { let x = call add(1, 2); let y = call both(x); print result(y); }
const JOIN_ROWS: [Row; 4] = [
    Row {
        task: &[1],
        input: None,
        body: Body::Runs(EntryKind::Value),
        status: Status::ExecDone,
    },
    Row {
        task: &[2],
        input: Some(&[1]),
        body: Body::Joins(2, &[&[2, 1], &[2, 2]]),
        status: Status::ExecDone,
    },
    Row {
        task: &[2, 1],
        input: None,
        body: Body::Runs(EntryKind::Value),
        status: Status::ExecDone,
    },
    Row {
        task: &[2, 2],
        input: None,
        body: Body::Runs(EntryKind::Value),
        status: Status::ExecDone,
    },
];

const JOIN_LEGAL: [Line; 19] = [
    Line::Submit(&[1], EntryKind::Add),
    Line::Submit(&[2], EntryKind::Both),
    Line::Launch(&[1], 1),
    Line::Start(&[1], 1, 1),
    Line::Ended(&[1], 1, 1, EntryKind::Value),
    Line::Settled(&[1], Status::ExecDone),
    Line::JoinRun(&[2]),
    Line::Submit(&[2, 1], EntryKind::Add),
    Line::Submit(&[2, 2], EntryKind::Add),
    Line::Launch(&[2, 1], 1),
    Line::Launch(&[2, 2], 1),
    Line::Start(&[2, 1], 1, 1),
    Line::Start(&[2, 2], 1, 1),
    Line::Ended(&[2, 1], 1, 1, EntryKind::Value),
    Line::Settled(&[2, 1], Status::ExecDone),
    Line::Ended(&[2, 2], 1, 1, EntryKind::Value),
    Line::Settled(&[2, 2], Status::ExecDone),
    Line::Settled(&[2], Status::ExecDone),
    Line::End,
];

const JOIN_BROKEN: [Change; 18] = [
    // another entry behind the run of the body
    (7, &[Line::Start(&[1], 1, 1)], 7, Law::Settling, 8),
    // another entry between the calls
    (
        8,
        &[
            Line::Launch(&[2, 1], 1),
            Line::Submit(&[2, 2], EntryKind::Add),
        ],
        10,
        Law::Settling,
        9,
    ),
    // the second call first
    (
        7,
        &[
            Line::Submit(&[2, 2], EntryKind::Add),
            Line::Submit(&[2, 1], EntryKind::Add),
        ],
        9,
        Law::Settling,
        8,
    ),
    // no second call
    (8, &[], 9, Law::Settling, 9),
    // the first call twice
    (
        8,
        &[Line::Submit(&[2, 1], EntryKind::Add)],
        8,
        Law::Settling,
        9,
    ),
    // a third call
    (
        9,
        &[Line::Submit(&[2, 3], EntryKind::Add)],
        9,
        Law::Settling,
        10,
    ),
    // a call of another app
    (
        7,
        &[Line::Submit(&[2, 1], EntryKind::Both)],
        8,
        Law::Settling,
        8,
    ),
    // a call of another join
    (
        7,
        &[Line::Submit(&[1, 1], EntryKind::Add)],
        8,
        Law::Settling,
        8,
    ),
    // a call of main in its place
    (
        7,
        &[Line::Submit(&[1], EntryKind::Add)],
        8,
        Law::Settling,
        8,
    ),
    // the calls before the run of the body
    (6, &[], 7, Law::Settling, 7),
    // a settling before the body ran
    (
        6,
        &[Line::Settled(&[2], Status::ExecDone)],
        6,
        Law::Settling,
        7,
    ),
    // a settling before a call that it returned
    (
        15,
        &[Line::Settled(&[2], Status::ExecDone)],
        15,
        Law::Settling,
        16,
    ),
    // the calls a second time
    (
        9,
        &[
            Line::Submit(&[2, 1], EntryKind::Add),
            Line::Submit(&[2, 2], EntryKind::Add),
        ],
        9,
        Law::Settling,
        10,
    ),
    // a second run of the body
    (
        9,
        &[
            Line::JoinRun(&[2]),
            Line::Submit(&[2, 1], EntryKind::Add),
            Line::Submit(&[2, 2], EntryKind::Add),
        ],
        9,
        Law::Launch,
        10,
    ),
    // a run before the input has settled
    (
        5,
        &[
            Line::JoinRun(&[2]),
            Line::Submit(&[2, 1], EntryKind::Add),
            Line::Submit(&[2, 2], EntryKind::Add),
            Line::Settled(&[1], Status::ExecDone),
        ],
        9,
        Law::Launch,
        6,
    ),
    // the run of an app that is no join
    (5, &[Line::JoinRun(&[1])], 5, Law::Launch, 6),
    // the run of no task
    (6, &[Line::JoinRun(&[3])], 6, Law::Launch, 7),
    // an attempt of a join
    (6, &[Line::Launch(&[2], 1)], 6, Law::Launch, 7),
];

// app both() { return 1; } main { let x = call both(); print result(x); }
const SHORT_JOIN_ROWS: [Row; 1] = [Row {
    task: &[1],
    input: None,
    body: Body::Joins(0, &[]),
    status: Status::ExecDone,
}];

const SHORT_JOIN_MAIN: [Option<u32>; 2] = [None, Some(1)];

const SHORT_JOIN_LEGAL: [Line; 4] = [
    Line::Submit(&[1], EntryKind::Both),
    Line::JoinRun(&[1]),
    Line::Settled(&[1], Status::ExecDone),
    Line::End,
];

const SHORT_JOIN_BROKEN: [Change; 5] = [
    // no run of the body
    (1, &[], 2, Law::Settling, 2),
    // a call that it doesn't make
    (
        2,
        &[Line::Submit(&[1, 1], EntryKind::Add)],
        2,
        Law::Settling,
        3,
    ),
    // a second run of the body
    (2, &[Line::JoinRun(&[1])], 2, Law::Launch, 3),
    // a run before the submission
    (
        0,
        &[Line::JoinRun(&[1]), Line::Submit(&[1], EntryKind::Both)],
        2,
        Law::Launch,
        1,
    ),
    // a second run behind the settling
    (3, &[Line::JoinRun(&[1])], 3, Law::Launch, 4),
];

#[test]
fn the_calls_of_a_join_stand_behind_its_run(rt: HostRuntime) -> Result<(), Fail> {
    let alloc = rt.alloc();
    let table = table(alloc, &JOIN_ROWS, &MAIN)?;
    let retries = retries(alloc, None, 0)?;
    let unchanged = changed(alloc, &JOIN_LEGAL, 0, &[], 0)?;
    assert_eq!(rt; verdict(&table, &retries, &unchanged), None);
    for (first, lines, skipped, law, entry) in JOIN_BROKEN {
        let entries = changed(alloc, &JOIN_LEGAL, first, lines, skipped)?;
        let found = verdict(&table, &retries, &entries);
        assert_eq!(rt; found, Some(Breach { law, entry }));
    }
    Ok(())
}

#[test]
fn a_join_without_calls_runs_too(rt: HostRuntime) -> Result<(), Fail> {
    let alloc = rt.alloc();
    let table = table(alloc, &SHORT_JOIN_ROWS, &SHORT_JOIN_MAIN)?;
    let retries = retries(alloc, None, 0)?;
    let unchanged = changed(alloc, &SHORT_JOIN_LEGAL, 0, &[], 0)?;
    assert_eq!(rt; verdict(&table, &retries, &unchanged), None);
    for (first, lines, skipped, law, entry) in SHORT_JOIN_BROKEN {
        let entries = changed(alloc, &SHORT_JOIN_LEGAL, first, lines, skipped)?;
        let found = verdict(&table, &retries, &entries);
        assert_eq!(rt; found, Some(Breach { law, entry }));
    }
    Ok(())
}

// cached app add(a) { return a - 1; }
// main { let x = call add(5); let y = call add(6); let z = call add(y); print result(z); }
const MEMO_ROWS: [Row; 3] = [
    Row {
        task: &[1],
        input: None,
        body: Body::Cached(EntryKind::Value, 5),
        status: Status::ExecDone,
    },
    Row {
        task: &[2],
        input: None,
        body: Body::Cached(EntryKind::Value, 6),
        status: Status::ExecDone,
    },
    Row {
        task: &[3],
        input: Some(&[2]),
        body: Body::Cached(EntryKind::Value, 5),
        status: Status::ExecDone,
    },
];

const MEMO_MAIN: [Option<u32>; 4] = [None, None, None, Some(3)];

const MEMO_LEGAL: [Line; 16] = [
    Line::Submit(&[1], EntryKind::Add),
    Line::Submit(&[2], EntryKind::Add),
    Line::Launch(&[1], 1),
    Line::Start(&[1], 1, 1),
    Line::Ended(&[1], 1, 1, EntryKind::Value),
    Line::Stored(&[1]),
    Line::Settled(&[1], Status::ExecDone),
    Line::Submit(&[3], EntryKind::Add),
    Line::Launch(&[2], 1),
    Line::Start(&[2], 1, 1),
    Line::Ended(&[2], 1, 1, EntryKind::Value),
    Line::Stored(&[2]),
    Line::Settled(&[2], Status::ExecDone),
    Line::MemoHit(&[3]),
    Line::Settled(&[3], Status::MemoDone),
    Line::End,
];

const MEMO_BROKEN: [Change; 17] = [
    // the state of a value from the memo without one
    (13, &[], 14, Law::Settling, 14),
    // the same after an attempt
    (
        6,
        &[Line::Settled(&[1], Status::MemoDone)],
        7,
        Law::Settling,
        7,
    ),
    // the state of an attempt's value after one from the memo
    (
        14,
        &[Line::Settled(&[3], Status::ExecDone)],
        15,
        Law::Settling,
        15,
    ),
    // a launch though the key is stored
    (13, &[Line::Launch(&[3], 1)], 13, Law::Launch, 14),
    // a launch after a value from the memo
    (14, &[Line::Launch(&[3], 1)], 14, Law::Launch, 15),
    // a value from the memo though nothing is stored
    (
        2,
        &[Line::MemoHit(&[1]), Line::Settled(&[1], Status::MemoDone)],
        7,
        Law::Launch,
        3,
    ),
    // a value from the memo though only another key is stored
    (
        8,
        &[Line::MemoHit(&[2]), Line::Settled(&[2], Status::MemoDone)],
        13,
        Law::Launch,
        9,
    ),
    // a value from the memo before the submission
    (7, &[Line::MemoHit(&[3])], 7, Law::Launch, 8),
    // a value from the memo before the input has settled
    (8, &[Line::MemoHit(&[3])], 8, Law::Launch, 9),
    // a second value from the memo
    (14, &[Line::MemoHit(&[3])], 14, Law::Launch, 15),
    // a value from the memo after the settling
    (15, &[Line::MemoHit(&[3])], 15, Law::Launch, 16),
    // a value from the memo for no task
    (7, &[Line::MemoHit(&[4])], 7, Law::Launch, 8),
    // a value is stored a second time
    (6, &[Line::Stored(&[1])], 6, Law::Launch, 7),
    // no value yet to store
    (4, &[Line::Stored(&[1])], 4, Law::Launch, 5),
    // an exception is stored
    (
        4,
        &[
            Line::Ended(&[1], 1, 1, EntryKind::ZeroDivisionError),
            Line::Stored(&[1]),
        ],
        6,
        Law::Launch,
        6,
    ),
    // a settling before the value is stored
    (
        5,
        &[Line::Settled(&[1], Status::ExecDone), Line::Stored(&[1])],
        7,
        Law::Launch,
        6,
    ),
    // a settling though only another key is stored
    (11, &[], 12, Law::Launch, 12),
];

#[test]
fn a_stored_value_is_taken_for_its_key(rt: HostRuntime) -> Result<(), Fail> {
    let alloc = rt.alloc();
    let table = table(alloc, &MEMO_ROWS, &MEMO_MAIN)?;
    let retries = retries(alloc, None, 0)?;
    let unchanged = changed(alloc, &MEMO_LEGAL, 0, &[], 0)?;
    assert_eq!(rt; verdict(&table, &retries, &unchanged), None);
    for (first, lines, skipped, law, entry) in MEMO_BROKEN {
        let entries = changed(alloc, &MEMO_LEGAL, first, lines, skipped)?;
        let found = verdict(&table, &retries, &entries);
        assert_eq!(rt; found, Some(Breach { law, entry }));
    }
    Ok(())
}

// Two calls of one key, both launched before a value is stored.
const TWIN_ROWS: [Row; 2] = [
    Row {
        task: &[1],
        input: None,
        body: Body::Cached(EntryKind::Value, 5),
        status: Status::ExecDone,
    },
    Row {
        task: &[2],
        input: None,
        body: Body::Cached(EntryKind::Value, 5),
        status: Status::ExecDone,
    },
];

const TWIN_LEGAL: [Line; 12] = [
    Line::Submit(&[1], EntryKind::Add),
    Line::Submit(&[2], EntryKind::Add),
    Line::Launch(&[1], 1),
    Line::Launch(&[2], 1),
    Line::Start(&[1], 1, 1),
    Line::Start(&[2], 1, 1),
    Line::Ended(&[1], 1, 1, EntryKind::Value),
    Line::Stored(&[1]),
    Line::Settled(&[1], Status::ExecDone),
    Line::Ended(&[2], 1, 1, EntryKind::Value),
    Line::Settled(&[2], Status::ExecDone),
    Line::End,
];

const TWIN_BROKEN: [Change; 4] = [
    // both values are stored
    (10, &[Line::Stored(&[2])], 10, Law::Launch, 11),
    // neither value is stored
    (7, &[], 8, Law::Launch, 8),
    // a value from the memo while the attempt runs
    (
        9,
        &[Line::MemoHit(&[2]), Line::Settled(&[2], Status::MemoDone)],
        11,
        Law::Attempt,
        10,
    ),
    // a value from the memo after the attempt's value
    (
        10,
        &[Line::MemoHit(&[2]), Line::Settled(&[2], Status::MemoDone)],
        11,
        Law::Attempt,
        11,
    ),
];

#[test]
fn one_of_two_attempts_of_a_key_stores_its_value(rt: HostRuntime) -> Result<(), Fail> {
    let alloc = rt.alloc();
    let table = table(alloc, &TWIN_ROWS, &MAIN)?;
    let retries = retries(alloc, None, 0)?;
    let unchanged = changed(alloc, &TWIN_LEGAL, 0, &[], 0)?;
    assert_eq!(rt; verdict(&table, &retries, &unchanged), None);
    for (first, lines, skipped, law, entry) in TWIN_BROKEN {
        let entries = changed(alloc, &TWIN_LEGAL, first, lines, skipped)?;
        let found = verdict(&table, &retries, &entries);
        assert_eq!(rt; found, Some(Breach { law, entry }));
    }
    Ok(())
}

// The second call has the key of the first one, and ends with an exception all the same.
const RAISING_ROWS: [Row; 2] = [
    Row {
        task: &[1],
        input: None,
        body: Body::Cached(EntryKind::Value, 5),
        status: Status::ExecDone,
    },
    Row {
        task: &[2],
        input: None,
        body: Body::Cached(EntryKind::ZeroDivisionError, 5),
        status: Status::Failed,
    },
];

const RAISING: [Line; 12] = [
    Line::Submit(&[1], EntryKind::Add),
    Line::Submit(&[2], EntryKind::Add),
    Line::Launch(&[1], 1),
    Line::Launch(&[2], 1),
    Line::Start(&[1], 1, 1),
    Line::Start(&[2], 1, 1),
    Line::Ended(&[1], 1, 1, EntryKind::Value),
    Line::Stored(&[1]),
    Line::Settled(&[1], Status::ExecDone),
    Line::Ended(&[2], 1, 1, EntryKind::ZeroDivisionError),
    Line::Settled(&[2], Status::Failed),
    Line::End,
];

const RAISING_BROKEN: [Change; 3] = [
    // a failure after a value from the memo
    (10, &[Line::MemoHit(&[2])], 10, Law::Settling, 12),
    // a value from the memo for a task that has none
    (
        10,
        &[Line::MemoHit(&[2]), Line::Settled(&[2], Status::MemoDone)],
        11,
        Law::Settling,
        12,
    ),
    // an exception is stored by a stored key
    (10, &[Line::Stored(&[2])], 10, Law::Launch, 11),
];

#[test]
fn a_task_without_a_value_takes_none_from_the_memo(rt: HostRuntime) -> Result<(), Fail> {
    let alloc = rt.alloc();
    let table = table(alloc, &RAISING_ROWS, &MAIN)?;
    let retries = retries(alloc, None, 0)?;
    let unchanged = changed(alloc, &RAISING, 0, &[], 0)?;
    assert_eq!(rt; verdict(&table, &retries, &unchanged), None);
    for (first, lines, skipped, law, entry) in RAISING_BROKEN {
        let entries = changed(alloc, &RAISING, first, lines, skipped)?;
        let found = verdict(&table, &retries, &entries);
        assert_eq!(rt; found, Some(Breach { law, entry }));
    }
    Ok(())
}
