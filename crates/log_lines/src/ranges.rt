//! The numbers and texts of entries are those that their types hold.

ghost use Rattle.std.specs.Prelude.{All, ◌<◌, ◌^◌};
ghost use Rattle.event_log.specs.Logs.{IsShort, AreShort, DecisionInRange, InRange};

use event_log::Entry;
use flow_base::{Decision, Path};

/// The numbers and texts of the entries are those that their types hold.
pub fn in_range(entries: &[Entry])
    ensures { All InRange entries.now }
{
    for entry in entries {
        entry_in_range(entry);
    }
}

fn entry_in_range(entry: &Entry)
    ensures { InRange entry.now }
{
    match entry {
        Entry::Submit { path, .. } => path_in_range(path),
        Entry::JoinRun { path } => path_in_range(path),
        Entry::MemoHit { path } => path_in_range(path),
        Entry::Launch { path, attempt } => {
            number_in_range(*attempt);
            path_in_range(path)
        }
        Entry::Dispatch {
            path,
            attempt,
            manager,
        } => managed_in_range(path, *attempt, *manager),
        Entry::Start {
            path,
            attempt,
            manager,
        } => managed_in_range(path, *attempt, *manager),
        Entry::Ended {
            path,
            attempt,
            manager,
            ..
        } => managed_in_range(path, *attempt, *manager),
        Entry::Held {
            path,
            attempt,
            manager,
        } => managed_in_range(path, *attempt, *manager),
        Entry::LostTry {
            path,
            attempt,
            manager,
        } => managed_in_range(path, *attempt, *manager),
        Entry::Stored { path } => path_in_range(path),
        Entry::Settled { path, .. } => path_in_range(path),
        Entry::Block { block, .. } => number_in_range(*block),
        Entry::Register {
            manager,
            block,
            slots,
        } => {
            number_in_range(*manager);
            number_in_range(*block);
            number_in_range(*slots)
        }
        Entry::Refused { block, version } => {
            version.as_slice();
            number_in_range(*block)
        }
        Entry::Tick { at } => long_in_range(*at),
        Entry::Beat { manager } => number_in_range(*manager),
        Entry::Silent { manager } => number_in_range(*manager),
        Entry::Lost { manager } => number_in_range(*manager),
        Entry::Drain { manager } => number_in_range(*manager),
        Entry::Drained { manager } => number_in_range(*manager),
        Entry::Hold { manager } => number_in_range(*manager),
        Entry::Scale { decision } => decision_in_range(*decision),
        Entry::Checkpoint { count } => long_in_range(*count),
        Entry::End => {}
    }
}

// An attempt at a manager.
fn managed_in_range(path: &Path, attempt: u32, manager: u32)
    ensures path { AreShort path.now }
    ensures attempt { IsShort attempt }
    ensures manager { IsShort manager }
{
    path_in_range(path);
}

fn decision_in_range(decision: Decision)
    ensures { DecisionInRange decision }
{
    match decision {
        Decision::Keep => {}
        Decision::Out(count) => number_in_range(count),
        Decision::In(count) => number_in_range(count),
    }
}

// The numbers of a path.
fn path_in_range(path: &Path)
    ensures { AreShort path.now }
{
    numbers_in_range(path.as_slice());
}

// A slice of 32-bit numbers.
fn numbers_in_range(numbers: &[u32])
    ensures { AreShort numbers.now }
{}

// A number that is read has the range of its type.
fn number_in_range(number: u32)
    ensures { IsShort number }
{}

fn long_in_range(number: u64)
    ensures { number < 2 ^ 64 }
{}
