//! Units of calls and outcomes.

ghost use Rattle.std.specs.Prelude.{◌≡◌, ◌+◌, ◌-◌, ◌^◌, length, map, min, sum};
ghost use Rattle.flow_base.specs.Values.{units};
ghost use Rattle.stored_units.specs.Stored as stored;

use flow_base::{FileOut, Outcome, Text, Value};

/// The most calls of a run.
pub const MAX_TASKS: usize = 100_000;

/// The most units that a run stores.
pub const MAX_STORED: u64 = 16_777_216;

/// A limit of a run.
#[derive(Clone, Copy, Debug, PartialEq, Eq)]
pub enum Limit {
    /// Of its calls: `MAX_TASKS`.
    Tasks,
    /// Of the units that it stores: `MAX_STORED`.
    Stored,
}

/// The units of a call: of its arguments and of the names of its outputs. A sum past 64 bits is 2^64 - 1.
pub fn call_units(arguments: &[Value], names: &[Text]) -> u64
    ensures { result ≡ min (stored.call_units arguments.now names.now) (2 ^ 64 - 1) }
{
    let mut sum: u64 = 0;
    for argument in arguments {
        sum = sum.saturating_add(argument.size());
    }
    for name in names {
        sum = sum.saturating_add(name_units(name));
    }
    sum
}

fn name_units(name: &Text) -> u64
    ensures { result ≡ min (stored.name_units name.now) (2 ^ 64 - 1) }
{
    (name.len() as u64).saturating_add(1)
}

fn file_units(file: &FileOut) -> u64
    ensures { result ≡ min (stored.file_units file.now) (2 ^ 64 - 1) }
{
    name_units(&file.name).saturating_add(file.content.len() as u64)
}

fn files_units(files: &[FileOut]) -> u64
    ensures { result ≡ min (sum (map stored.file_units files.now)) (2 ^ 64 - 1) }
{
    let mut sum: u64 = 0;
    for file in files {
        sum = sum.saturating_add(file_units(file));
    }
    sum
}

/// The units of an outcome: of a value with its files. An exception has none. A sum past 64 bits is
/// 2^64 - 1.
pub fn outcome_units(outcome: &Outcome) -> u64
    ensures { result ≡ min (stored.outcome_units outcome.now) (2 ^ 64 - 1) }
{
    match outcome {
        Outcome::Value { value, files } => {
            value.size().saturating_add(files_units(files.as_slice()))
        }
        Outcome::Failed(_) => 0,
    }
}
