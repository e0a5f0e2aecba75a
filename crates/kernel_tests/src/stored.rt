//! A cached app that is called twice with equal arguments, its turns taken from the first to the last and from the
//! last to the first.

use crate::runs::{Order, run_text};
use crate::tasks::{path_of, plain};
use flow_base::{Items, Names, Paths, Text, Value};
use history_laws::{MainEvent, Retries, Table};
use history_verdict::verdict::verdict;
use memo_table::Key;
use sqlite_items::Items as ListOf;
use std::alloc::{AllocError, Global};
use std::sync::Arc;
use std::test::Fail;

const TWICE: &[u8] =
    b"cached app twice(n) { return n + n; } main { let a = call twice(3); let b = call twice(3); }";

const TWICE_HEAD: &str = "task 1 twice value 6\ntask 2 twice value 6\nmain ended\n";

// More rounds than it takes.
const ROUNDS: usize = 20;

// The key of both calls. The laws look only at which keys are equal, so the app's name stands for its text.
fn key(alloc: Global) -> Result<Key, AllocError> {
    let app = Text::of(alloc, "twice")?;
    let mut arguments = Items::new(alloc);
    arguments.push(Value::Int(3))?;
    Key::new(alloc, Arc::new(alloc, app)?, arguments, Names::new(alloc))
}

fn table(alloc: Global) -> Result<Table, AllocError> {
    let mut tasks = ListOf::new(alloc);
    let mut acts = ListOf::new(alloc);
    for number in [1, 2] {
        let app = Text::of(alloc, "twice")?;
        let mut task = plain(alloc, path_of(alloc, number)?, app, Paths::new(alloc))?;
        task.key = Some(key(alloc)?);
        tasks.push(task)?;
        acts.push(MainEvent::Call)?;
    }
    Ok(Table { tasks, acts })
}

// Both are launched before the value is stored.
const FIRST_TO_LAST: &str =
    "submit 1 twice\nsubmit 2 twice\nlaunch 1 try 1\nlaunch 2 try 1\nstart 1 try 1 manager 1\nended 1 try 1 manager 1 value\nstart 2 try 1 manager 1\nended 2 try 1 manager 1 value\nstored 1\nsettled 1 exec_done\nsettled 2 exec_done\nend\n";

// The second is submitted once the first has settled.
const LAST_TO_FIRST: &str =
    "submit 1 twice\nlaunch 1 try 1\nstart 1 try 1 manager 1\nended 1 try 1 manager 1 value\nstored 1\nsettled 1 exec_done\nsubmit 2 twice\nmemo 2\nsettled 2 memo_done\nend\n";

#[test]
fn a_value_is_stored_before_its_task_settles(rt: HostRuntime) -> Result<(), Fail> {
    let alloc = rt.alloc();
    let table = table(alloc)?;
    let retries = Retries {
        costs: ListOf::new(alloc),
        limit: 0,
    };
    for (order, log) in [
        (Order::FirstToLast, FIRST_TO_LAST),
        (Order::LastToFirst, LAST_TO_FIRST),
    ] {
        let given = run_text(alloc, TWICE, order, ROUNDS)?;
        assert_eq!(rt; given.head.as_slice(), TWICE_HEAD.as_bytes());
        assert_eq!(rt; given.log.as_slice(), log.as_bytes());
        assert!(rt; verdict(&table, &retries, &given.entries).is_none());
    }
    Ok(())
}
