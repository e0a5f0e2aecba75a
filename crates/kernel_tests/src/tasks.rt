//! What an evaluation says of tasks that have values.

use flow_base::{Path, Paths, Text};
use history_laws::Expected;
use std::alloc::{AllocError, Global};
use task_record::Status;

/// The path of a call of main.
pub fn path_of(alloc: Global, number: u32) -> Result<Path, AllocError> {
    let mut path = Path::new(alloc);
    path.push(number)?;
    Ok(path)
}

/// A call of a plain app with these inputs.
pub fn plain(alloc: Global, path: Path, app: Text, inputs: Paths) -> Result<Expected, AllocError> {
    Ok(Expected {
        path,
        app,
        inputs,
        runs: true,
        joins: false,
        calls: 0,
        awaits: Paths::new(alloc),
        kind: Text::of(alloc, "value")?,
        key: None,
        status: Status::ExecDone,
    })
}

/// A call of a join without inputs that makes so many calls, and waits for these.
pub fn join(alloc: Global, path: Path, app: Text, calls: u32, awaits: Paths) -> Expected {
    Expected {
        path,
        app,
        inputs: Paths::new(alloc),
        runs: false,
        joins: true,
        calls,
        awaits,
        kind: Text::new(alloc),
        key: None,
        status: Status::ExecDone,
    }
}
