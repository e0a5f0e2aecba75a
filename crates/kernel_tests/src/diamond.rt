//! One script, its turns taken from the first to the last and from the last to the first.

use crate::runs::{Order, run_text};
use crate::tasks::{path_of, plain};
use flow_base::{Paths, Text};
use history_laws::{MainEvent, Retries, Table};
use history_verdict::verdict::verdict;
use sqlite_items::Items as ListOf;
use std::alloc::{AllocError, Global};
use std::test::Fail;

const DIAMOND: &[u8] =
    b"app add(a, b) { return a + b; } main { let a = call add(1, 1); let b = call add(a, 10); let c = call add(a, 20); let d = call add(b, c); }";

const DIAMOND_HEAD: &str =
    "task 1 add value 2\ntask 2 add value 12\ntask 3 add value 22\ntask 4 add value 34\nmain ended\n";

fn paths_of(alloc: Global, numbers: &[u32]) -> Result<Paths, AllocError> {
    let mut paths = Paths::new(alloc);
    for number in numbers {
        paths.push(path_of(alloc, *number)?)?;
    }
    Ok(paths)
}

// More rounds than the diamond takes.
const ROUNDS: usize = 40;

fn diamond_table(alloc: Global) -> Result<Table, AllocError> {
    let mut tasks = ListOf::new(alloc);
    let mut acts = ListOf::new(alloc);
    for (number, inputs) in [
        (1, [].as_slice()),
        (2, [1].as_slice()),
        (3, [1].as_slice()),
        (4, [2, 3].as_slice()),
    ] {
        let app = Text::of(alloc, "add")?;
        let inputs = paths_of(alloc, inputs)?;
        tasks.push(plain(alloc, path_of(alloc, number)?, app, inputs)?)?;
        acts.push(MainEvent::Call)?;
    }
    Ok(Table { tasks, acts })
}

const FIRST_TO_LAST: &str =
    "submit 1 add\nsubmit 2 add\nsubmit 3 add\nsubmit 4 add\nlaunch 1 try 1\nstart 1 try 1 manager 1\nended 1 try 1 manager 1 value\nsettled 1 exec_done\nlaunch 2 try 1\nlaunch 3 try 1\nstart 2 try 1 manager 1\nended 2 try 1 manager 1 value\nstart 3 try 1 manager 1\nended 3 try 1 manager 1 value\nsettled 2 exec_done\nsettled 3 exec_done\nlaunch 4 try 1\nstart 4 try 1 manager 1\nended 4 try 1 manager 1 value\nsettled 4 exec_done\nend\n";

const LAST_TO_FIRST: &str =
    "submit 1 add\nlaunch 1 try 1\nstart 1 try 1 manager 1\nended 1 try 1 manager 1 value\nsettled 1 exec_done\nsubmit 2 add\nlaunch 2 try 1\nstart 2 try 1 manager 1\nended 2 try 1 manager 1 value\nsettled 2 exec_done\nsubmit 3 add\nlaunch 3 try 1\nstart 3 try 1 manager 1\nended 3 try 1 manager 1 value\nsettled 3 exec_done\nsubmit 4 add\nlaunch 4 try 1\nstart 4 try 1 manager 1\nended 4 try 1 manager 1 value\nsettled 4 exec_done\nend\n";

#[test]
fn turns_in_both_orders_give_one_head_and_legal_logs(rt: HostRuntime) -> Result<(), Fail> {
    let alloc = rt.alloc();
    let table = diamond_table(alloc)?;
    let retries = Retries {
        costs: ListOf::new(alloc),
        limit: 0,
    };
    for (order, log) in [
        (Order::FirstToLast, FIRST_TO_LAST),
        (Order::LastToFirst, LAST_TO_FIRST),
    ] {
        let given = run_text(alloc, DIAMOND, order, ROUNDS)?;
        assert_eq!(rt; given.head.as_slice(), DIAMOND_HEAD.as_bytes());
        assert_eq!(rt; given.log.as_slice(), log.as_bytes());
        assert!(rt; verdict(&table, &retries, &given.entries).is_none());
    }
    Ok(())
}
