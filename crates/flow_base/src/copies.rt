//! Copies of exceptions and outcomes.

ghost use Rattle.std.specs.Prelude.{◌≡◌, IfOk};

use crate::outcome::{Exception, FileOut, Files, Outcome};
use crate::path::{Path, Paths};
use sqlite_items::Items as ListOf;
use std::alloc::{AllocError, Global};

impl Exception {
    /// An equal exception.
    pub fn copy(&self, alloc: Global) -> Result<Exception, AllocError>
        ensures { IfOk result (λ exception. exception ≡ self.now) }
    {
        match self {
            Exception::ZeroDivisionError => Ok(Exception::ZeroDivisionError),
            Exception::OverflowError => Ok(Exception::OverflowError),
            Exception::TypeError => Ok(Exception::TypeError),
            Exception::IndexError => Ok(Exception::IndexError),
            Exception::ValueError => Ok(Exception::ValueError),
            Exception::SizeError => Ok(Exception::SizeError),
            Exception::BudgetError => Ok(Exception::BudgetError),
            Exception::MissingOutputs => Ok(Exception::MissingOutputs),
            Exception::AppError(text) => Ok(Exception::AppError(text.copy(alloc)?)),
            Exception::DependencyError(paths) => {
                Ok(Exception::DependencyError(copy_paths(alloc, paths.as_slice())?))
            }
            Exception::JoinError(paths) => {
                Ok(Exception::JoinError(copy_paths(alloc, paths.as_slice())?))
            }
            Exception::DepthError => Ok(Exception::DepthError),
            Exception::ManagerLost(manager) => Ok(Exception::ManagerLost(*manager)),
        }
    }
}

impl Outcome {
    /// An equal outcome.
    pub fn copy(&self, alloc: Global) -> Result<Outcome, AllocError>
        ensures { IfOk result (λ outcome. outcome ≡ self.now) }
    {
        match self {
            Outcome::Value { value, files } => Ok(Outcome::Value {
                value: value.copy(alloc)?,
                files: copy_files(alloc, files.as_slice())?,
            }),
            Outcome::Failed(exception) => Ok(Outcome::Failed(exception.copy(alloc)?)),
        }
    }
}

/// Equal files, in the same order.
pub fn copy_files(alloc: Global, files: &[FileOut]) -> Result<Files, AllocError>
    ensures { IfOk result (λ copies. copies ≡ files.now) }
{
    let mut copies = Files::new(alloc);
    for file in files {
        copies.push(FileOut {
            name: file.name.copy(alloc)?,
            content: file.content.copy(alloc)?,
        })?;
    }
    Ok(copies)
}

fn copy_paths(alloc: Global, paths: &[Path]) -> Result<Paths, AllocError>
    ensures { IfOk result (λ copies. copies ≡ paths.now) }
{
    let mut copies = ListOf::new(alloc);
    for path in paths {
        copies.push(path.copy(alloc)?)?;
    }
    Ok(copies)
}
