//! What monitors are told, and that they come back whatever the status.

use crate::calls::watched;
use flow_base::Outcome;
use parsl_engine::Ledger;
use std::alloc::{AllocError, Global};
use std::test::Fail;

const FAILED_INPUTS: &[u8] =
    b"app add(a, b) { return a + b; } app div(a, b) { return a / b; } main { let f = call div(1, 0); let g = call div(8, 2); call add(f, g); call add(f, 1); }";

const FAILED_INPUTS_OUT: &[u8] =
    b"task 1 div exception ZeroDivisionError\ntask 2 div value 4\ntask 3 add exception DependencyError 1\ntask 4 add exception DependencyError 1\nmain ended\nlog 15\nsubmit 1 div\nsubmit 2 div\nsubmit 3 add\nsubmit 4 add\nlaunch 1 try 1\nlaunch 2 try 1\nstart 1 try 1 manager 1\nended 1 try 1 manager 1 ZeroDivisionError\nstart 2 try 1 manager 1\nended 2 try 1 manager 1 value\nsettled 1 failed\nsettled 4 dep_fail\nsettled 2 exec_done\nsettled 3 dep_fail\nend\n";

// The settlements of that log: the call, the state, and the exception or none.
const SETTLEMENTS: [(u32, &str, &str); 4] = [
    (1, "failed", "ZeroDivisionError"),
    (4, "dep_fail", "DependencyError"),
    (2, "exec_done", ""),
    (3, "dep_fail", "DependencyError"),
];

fn two(alloc: Global) -> Result<Vec<Ledger>, AllocError> {
    let mut monitors = Vec::new(alloc);
    for _monitor in 0..2 {
        monitors.push(Ledger::new(alloc))?;
    }
    Ok(monitors)
}

fn raised(outcome: &Outcome) -> &str {
    match outcome {
        Outcome::Value { .. } => "",
        Outcome::Failed(exception) => exception.name(),
    }
}

#[test]
fn two_monitors_are_told_of_the_settlements_of_the_log(rt: HostRuntime) -> Result<(), Fail> {
    let alloc = rt.alloc();
    let mut monitors = two(alloc)?;
    let answer = watched(alloc, &["run", "s"], FAILED_INPUTS, 1000, &mut monitors)?;
    assert_eq!(rt; answer.status, 0);
    assert_eq!(rt; answer.out.bytes(), FAILED_INPUTS_OUT);
    assert_eq!(rt; monitors.len(), 2);
    for monitor in &monitors {
        assert_eq!(rt; monitor.settlements().len(), SETTLEMENTS.len());
        for (told, (call, status, exception)) in monitor.settlements().iter().zip(SETTLEMENTS) {
            assert_eq!(rt; told.path.as_slice(), [call].as_slice());
            assert_eq!(rt; told.status.name(), status);
            assert_eq!(rt; raised(&told.outcome), exception);
        }
    }
    Ok(())
}

// Words, a script, the room of out, the status, and how many settlements there are.
type Row = (&'static [&'static str], &'static [u8], u64, u8, usize);

const ROWS: [Row; 8] = [
    (&["run", "s"], FAILED_INPUTS, 1000, 0, 4),
    (
        &["run", "s"],
        b"app add(a, b) { return a + b; } main { print result(call add(1, 2)); call add(3, 4); raise \"no\"; }",
        1000,
        1,
        2,
    ),
    (&["run", "t"], FAILED_INPUTS, 1000, 6, 0),
    (&["run"], FAILED_INPUTS, 1000, 2, 0),
    (&["run", "s"], b"main", 1000, 3, 0),
    (&["run", "s"], FAILED_INPUTS, 10, 7, 4),
    (
        &["run", "s"],
        b"app add(a, b) { return a + b; } main { print result(call add(1, 2)); let t = \"a\"; for i in range(0, 15) { t = t + t; } while 1 { call add(t, t); } }",
        1000,
        10,
        1,
    ),
    (&["seq", "s"], FAILED_INPUTS, 1000, 0, 0),
];

#[test]
fn monitors_come_back_whatever_the_status(rt: HostRuntime) -> Result<(), Fail> {
    let alloc = rt.alloc();
    for (words, script, room, status, settlements) in ROWS {
        let mut monitors = two(alloc)?;
        let answer = watched(alloc, words, script, room, &mut monitors)?;
        assert_eq!(rt; answer.status, status, "{words:?} {script:?}");
        assert_eq!(rt; monitors.len(), 2, "{words:?} {script:?}");
        for monitor in &monitors {
            assert_eq!(rt;
                monitor.settlements().len(),
                settlements,
                "{words:?} {script:?}"
            );
        }
    }
    Ok(())
}
