//! Walks of a task through its states.

use crate::{Status, TaskRecord};
use flow_base::{Items, Names, Path};
use std::alloc::Global;
use std::test::Fail;

#[derive(Clone, Copy)]
enum Transition {
    Pending,
    Launched,
    Running,
    RunningEnded,
    Joining,
    Retryable(u64),
    Finish(Status),
}

// Leaves the record as it is where the step isn't allowed.
fn take(record: &mut TaskRecord, step: Transition) {
    match step {
        Transition::Pending => {
            if record.may_become(Status::Pending) {
                record.pending();
            }
        }
        Transition::Launched => {
            if record.may_become(Status::Launched) && record.attempts() < u32::MAX {
                record.launched();
            }
        }
        Transition::Running => {
            if record.may_become(Status::Running) {
                record.running();
            }
        }
        Transition::RunningEnded => {
            if record.may_become(Status::RunningEnded) {
                record.running_ended();
            }
        }
        Transition::Joining => {
            if record.may_become(Status::Joining) {
                record.joining();
            }
        }
        Transition::Retryable(cost) => {
            if record.may_become(Status::FailRetryable) && cost <= u64::MAX - record.cost() {
                record.retryable(cost);
            }
        }
        Transition::Finish(status) => {
            if status.is_settled() && record.may_become(status) {
                record.finish(status);
            }
        }
    }
}

fn after(alloc: Global, steps: &[Transition]) -> TaskRecord {
    let mut record = TaskRecord::new(Path::new(alloc), 3, Items::new(alloc), Names::new(alloc));
    for step in steps {
        take(&mut record, *step);
    }
    record
}

// Each walk with the state to which it leads, the attempts and the cost.
const WALKS: [(&[Transition], Status, u32, u64); 13] = [
    (&[], Status::Unsched, 0, 0),
    (&[Transition::Pending], Status::Pending, 0, 0),
    (
        &[Transition::Pending, Transition::Launched],
        Status::Launched,
        1,
        0,
    ),
    (
        &[
            Transition::Pending,
            Transition::Launched,
            Transition::Running,
        ],
        Status::Running,
        1,
        0,
    ),
    (
        &[
            Transition::Pending,
            Transition::Launched,
            Transition::Running,
            Transition::RunningEnded,
        ],
        Status::RunningEnded,
        1,
        0,
    ),
    (
        &[Transition::Pending, Transition::Joining],
        Status::Joining,
        0,
        0,
    ),
    (
        &[
            Transition::Pending,
            Transition::Launched,
            Transition::Running,
            Transition::RunningEnded,
            Transition::Finish(Status::ExecDone),
        ],
        Status::ExecDone,
        1,
        0,
    ),
    (
        &[Transition::Pending, Transition::Finish(Status::MemoDone)],
        Status::MemoDone,
        0,
        0,
    ),
    (
        &[
            Transition::Pending,
            Transition::Joining,
            Transition::Finish(Status::Failed),
        ],
        Status::Failed,
        0,
        0,
    ),
    (
        &[Transition::Pending, Transition::Finish(Status::DepFail)],
        Status::DepFail,
        0,
        0,
    ),
    (
        &[
            Transition::Pending,
            Transition::Launched,
            Transition::Retryable(50),
        ],
        Status::FailRetryable,
        1,
        50,
    ),
    (
        &[
            Transition::Pending,
            Transition::Launched,
            Transition::Retryable(50),
            Transition::Pending,
            Transition::Launched,
            Transition::Running,
            Transition::RunningEnded,
            Transition::Retryable(100),
            Transition::Pending,
            Transition::Launched,
        ],
        Status::Launched,
        3,
        150,
    ),
    (
        &[
            Transition::Pending,
            Transition::Joining,
            Transition::Finish(Status::MemoDone),
        ],
        Status::Joining,
        0,
        0,
    ),
];

#[test]
fn walks_with_their_attempts_and_costs(rt: HostRuntime) -> Result<(), Fail> {
    let alloc = rt.alloc();
    for (steps, status, attempts, cost) in WALKS {
        let record = after(alloc, steps);
        assert_eq!(rt; record.status(), status);
        assert_eq!(rt; record.attempts(), attempts);
        assert_eq!(rt; record.cost(), cost);
    }
    Ok(())
}

// Which state may go to which.
const TRANSITIONS: [(Status, Status); 18] = [
    (Status::Unsched, Status::Pending),
    (Status::Pending, Status::Launched),
    (Status::Launched, Status::Running),
    (Status::Running, Status::RunningEnded),
    (Status::Launched, Status::FailRetryable),
    (Status::Running, Status::FailRetryable),
    (Status::RunningEnded, Status::FailRetryable),
    (Status::FailRetryable, Status::Pending),
    (Status::Pending, Status::Joining),
    (Status::Pending, Status::MemoDone),
    (Status::Pending, Status::DepFail),
    (Status::Pending, Status::Failed),
    (Status::Launched, Status::Failed),
    (Status::Running, Status::Failed),
    (Status::RunningEnded, Status::ExecDone),
    (Status::RunningEnded, Status::Failed),
    (Status::Joining, Status::ExecDone),
    (Status::Joining, Status::Failed),
];

fn is_listed(from: Status, to: Status) -> bool {
    for row in TRANSITIONS {
        if row.0 == from && row.1 == to {
            return true;
        }
    }
    false
}

const STATES: [Status; 11] = [
    Status::Unsched,
    Status::Pending,
    Status::Launched,
    Status::Running,
    Status::RunningEnded,
    Status::Joining,
    Status::ExecDone,
    Status::MemoDone,
    Status::Failed,
    Status::DepFail,
    Status::FailRetryable,
];

#[test]
fn every_pair_of_states(rt: HostRuntime) -> Result<(), Fail> {
    let alloc = rt.alloc();
    for (steps, status, _, _) in WALKS {
        let record = after(alloc, steps);
        for next in STATES {
            assert_eq!(rt; record.may_become(next), is_listed(status, next));
        }
    }
    Ok(())
}
