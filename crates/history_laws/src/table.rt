//! What the laws take from the sequential evaluation of a script, and from the settings.

use flow_base::{Path, Paths, Text};
use memo_table::Key;
use sqlite_items::Items as ListOf;
use task_record::Status;

/// What the evaluation says of a task.
#[derive(Drop)]
pub struct Expected {
    pub path: Path,
    /// The name of its app.
    pub app: Text,
    /// The paths that it waits for.
    pub inputs: Paths,
    /// Whether it gets its outcome by an attempt.
    pub runs: bool,
    /// Whether it gets its outcome by the calls of its body.
    pub joins: bool,
    /// How many calls its body makes.
    pub calls: u32,
    /// The paths that it waits for once its body ran.
    pub awaits: Paths,
    /// How its body ends, where it gets its outcome by an attempt: the word `value`, or the name of its
    /// exception. Empty for every other task.
    pub kind: Text,
    /// The key of its call, where its app is cached and it gets its outcome by an attempt.
    pub key: Option<Key>,
    /// The state in which it settles, unless the memo has its value.
    pub status: Status,
}

/// An act of main that the laws look at.
#[derive(Drop)]
pub enum MainEvent {
    /// Its next call.
    Call,
    /// It waits for the task of this path.
    Wait(Path),
}

/// The tasks of an evaluation, those of main and those of each join, and main's acts in order.
#[derive(Drop)]
pub struct Table {
    pub tasks: ListOf<Expected>,
    pub acts: ListOf<MainEvent>,
}

/// What an attempt costs, in hundredths of a retry, that ends with the exception of this name.
#[derive(Drop)]
pub struct RetryCost {
    pub name: Text,
    pub cost: u32,
}

/// The costs of attempts, 100 for a name that isn't here, and the greatest sum of costs with which a
/// task is launched again.
#[derive(Drop)]
pub struct Retries {
    pub costs: ListOf<RetryCost>,
    pub limit: u32,
}
