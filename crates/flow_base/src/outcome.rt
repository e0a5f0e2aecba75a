//! Exceptions, outcomes, and what a whole script gives.

ghost use Rattle.std.specs.Prelude.{◌≡◌};
ghost use Rattle.flow_base.specs.Exceptions.{exception_name};

use crate::path::{Path, Paths};
use crate::text::Text;
use crate::value::{Items, Value};
use sqlite_items::Items as ListOf;

/// The files of an app with outputs, one an output.
pub type Files = ListOf<FileOut>;

/// Tasks with their outcomes, by path.
pub type TaskEnds = ListOf<TaskEnd>;

/// Why a body or a task has no value.
#[derive(Drop)]
pub enum Exception {
    ZeroDivisionError,
    OverflowError,
    TypeError,
    IndexError,
    ValueError,
    SizeError,
    BudgetError,
    MissingOutputs,
    AppError(Text),
    /// The inputs that failed, distinct, in order of first appearance.
    DependencyError(Paths),
    /// The returned futures that failed, distinct, in order of first appearance.
    JoinError(Paths),
    DepthError,
    /// The number of the manager that was lost.
    ManagerLost(u32),
}

impl Exception {
    /// Its name, without what it carries.
    pub fn name(&self) -> &'static str
        ensures { result.now ≡ exception_name self.now }
    {
        match self {
            Exception::ZeroDivisionError => "ZeroDivisionError",
            Exception::OverflowError => "OverflowError",
            Exception::TypeError => "TypeError",
            Exception::IndexError => "IndexError",
            Exception::ValueError => "ValueError",
            Exception::SizeError => "SizeError",
            Exception::BudgetError => "BudgetError",
            Exception::MissingOutputs => "MissingOutputs",
            Exception::AppError(_) => "AppError",
            Exception::DependencyError(_) => "DependencyError",
            Exception::JoinError(_) => "JoinError",
            Exception::DepthError => "DepthError",
            Exception::ManagerLost(_) => "ManagerLost",
        }
    }
}

/// A file that an app wrote to one of its outputs.
#[derive(Drop)]
pub struct FileOut {
    pub name: Text,
    pub content: Text,
}

/// How a task ended: its value with its files, one an output, or its exception.
#[derive(Drop)]
pub enum Outcome {
    Value { value: Value, files: Files },
    Failed(Exception),
}

/// How a body ended.
#[derive(Drop)]
pub enum Ended {
    Value { value: Value, files: Files },
    Raised(Exception),
}

/// How main ended.
#[derive(Drop)]
pub enum Ending {
    Ended,
    Raised(Exception),
}

/// A task with its outcome.
#[derive(Drop)]
pub struct TaskEnd {
    pub path: Path,
    pub app: Text,
    pub outcome: Outcome,
}

/// What a script gives: its printed values in order, its tasks by path, and how main ended.
#[derive(Drop)]
pub struct Evaluation {
    pub printed: Items,
    pub tasks: TaskEnds,
    pub main: Ending,
}
