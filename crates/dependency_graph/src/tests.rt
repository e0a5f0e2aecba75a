//! What calls wait for, and what becomes of them.

ghost use Rattle.std.specs.Prelude.{◌≡◌, true, [], ◌∷◌, if◌then◌else◌, map, Some, IfOk, OnOk, slice_set};
ghost use Rattle.dependency_graph.specs.declared.callback.FutureState.TheVariants as state;
ghost use Rattle.dependency_graph.specs.Callbacks.{is_open, state_in};
ghost use Rattle.dependency_graph.specs.Graphs.{AreThere, CanAdd, with_task};
ghost use Rattle.dependency_graph.specs.OutcomeStates.{state_of};
ghost use Rattle.dependency_graph.specs.Places.{AreDistinct, place_in};

use crate::{
    Callback, Graph, Monitor, Outcomes, Readiness, Settlement, are_deep, inputs_of, is_resolved,
    readiness_of, resolve,
};
use flow_base::{
    Exception, FileOut, Files, Items, Outcome, Path, Paths, TaskEnd, TaskEnds, Text, Value,
};
use sqlite_items::Items as ListOf;
use std::alloc::{AllocError, Global};
use std::test::Fail;
use task_record::Status;

#[derive(Drop)]
struct Known {
    ends: TaskEnds,
}

impl Outcomes for Known {
    ghost tasks = { λ known. map (λ e. record { path = e.path; app = 0; arguments = []; names = []; inputs = []; outcome = e.outcome }) known.ends };

    fn outcome(&self, path: &Path) -> Option<&Outcome> {
        for end in self.ends.as_slice() {
            if end.path.as_slice() == path.as_slice() {
                return Some(&end.outcome);
            }
        }
        None
    }
}

fn path(alloc: Global, number: u32) -> Result<Path, AllocError>
    ensures { IfOk result (λ path. path ≡ number ∷ []) }
{
    let mut path = Path::new(alloc);
    path.push(number)?;
    Ok(path)
}

fn future(alloc: Global, number: u32) -> Result<Value, AllocError> {
    Ok(Value::Future {
        path: path(alloc, number)?,
        outputs: 1,
    })
}

fn output(alloc: Global, number: u32) -> Result<Value, AllocError> {
    Ok(Value::Output {
        path: path(alloc, number)?,
        index: 0,
    })
}

fn pair(alloc: Global, first: Value, second: Value) -> Result<Items, AllocError> {
    let mut items = Items::new(alloc);
    items.push(first)?;
    items.push(second)?;
    Ok(items)
}

fn end(alloc: Global, number: u32, outcome: Outcome) -> Result<TaskEnd, AllocError> {
    Ok(TaskEnd {
        path: path(alloc, number)?,
        app: Text::of(alloc, "app")?,
        outcome,
    })
}

fn text(alloc: Global, letter: u8) -> Result<Text, AllocError> {
    let mut text = Text::new(alloc);
    if letter.is_ascii_lowercase() {
        text.push(letter)?;
    }
    Ok(text)
}

fn files(alloc: Global) -> Result<Files, AllocError> {
    let mut files = Files::new(alloc);
    files.push(FileOut {
        name: text(alloc, b'f')?,
        content: text(alloc, b'x')?,
    })?;
    Ok(files)
}

/// Task 1 has the value 7 and a file, and task 2 failed.
fn two_known(alloc: Global) -> Result<Known, AllocError> {
    let value = Value::Int(7);
    let files = files(alloc)?;
    let failed = Outcome::Failed(Exception::ZeroDivisionError);
    let mut ends = TaskEnds::new(alloc);
    ends.push(end(alloc, 1, Outcome::Value { value, files })?)?;
    ends.push(end(alloc, 2, failed)?)?;
    Ok(Known { ends })
}

fn shown(alloc: Global, paths: &[Path]) -> Result<String, AllocError> {
    let mut text = String::new(alloc);
    for path in paths {
        for number in path.as_slice() {
            text.push_str(format!(in alloc; "{number} ")?.as_str())?;
        }
    }
    Ok(text)
}

/// A future twice, an output and a list with both.
fn nested(alloc: Global) -> Result<Items, AllocError> {
    let list = pair(alloc, future(alloc, 3)?, output(alloc, 1)?)?;
    let mut arguments = pair(alloc, future(alloc, 2)?, Value::List(list))?;
    arguments.push(output(alloc, 4)?)?;
    arguments.push(future(alloc, 2)?)?;
    Ok(arguments)
}

#[test]
fn inputs_in_order_of_first_appearance(rt: HostRuntime) -> Result<(), Fail> {
    let alloc = rt.alloc();
    let arguments = nested(alloc)?;
    let paths = inputs_of(alloc, arguments.as_slice())?;
    assert_eq!(rt; shown(alloc, paths.as_slice())?.as_str(), "2 3 1 4 ");
    Ok(())
}

/// In a list argument, and in an item of it.
fn in_lists(alloc: Global, value: Value) -> Result<Items, AllocError> {
    let list = pair(alloc, value, Value::Nothing)?;
    pair(alloc, Value::List(list), Value::Int(1))
}

#[test]
fn depth(rt: HostRuntime) -> Result<(), Fail> {
    let alloc = rt.alloc();
    let of_futures = pair(alloc, future(alloc, 1)?, Value::Nothing)?;
    let of_numbers = pair(alloc, Value::Int(1), Value::Nothing)?;
    for (value, deep) in [
        (future(alloc, 1)?, false),
        (Value::List(of_numbers), false),
        (Value::List(of_futures), true),
    ] {
        let arguments = in_lists(alloc, value)?;
        assert_eq!(rt; are_deep(arguments.as_slice()), deep);
    }
    Ok(())
}

#[test]
fn values_and_files_in_place(rt: HostRuntime) -> Result<(), Fail> {
    let alloc = rt.alloc();
    let known = two_known(alloc)?;
    let list = pair(alloc, output(alloc, 1)?, Value::Int(5))?;
    let arguments = pair(alloc, future(alloc, 1)?, Value::List(list))?;
    let file = Value::File {
        name: text(alloc, b'f')?,
        content: text(alloc, b'x')?,
    };
    let list = pair(alloc, file, Value::Int(5))?;
    let expected = Value::List(pair(alloc, Value::Int(7), Value::List(list))?);
    let values = resolve(alloc, &known, arguments.as_slice())?;
    assert!(rt; is_resolved(&known, arguments.as_slice(), values.as_slice()));
    assert!(rt; !is_resolved(&known, arguments.as_slice(), arguments.as_slice()));
    assert!(rt; Value::List(values).same(&expected));
    Ok(())
}

/// A list in a list, with more levels than a value may have.
fn too_large(alloc: Global) -> Result<Value, AllocError> {
    let mut value = Value::Nothing;
    for _ in 0..64 {
        value = Value::List(pair(alloc, value, Value::Nothing)?);
    }
    Ok(value)
}

fn verdict(alloc: Global, arguments: &[Value]) -> Result<String, AllocError> {
    match readiness_of(alloc, &two_known(alloc)?, arguments)? {
        Readiness::Settles(Exception::DependencyError(paths)) => shown(alloc, paths.as_slice()),
        Readiness::Settles(exception) => String::from_str(alloc, exception.name()),
        Readiness::Runs(_) => String::from_str(alloc, "runs"),
    }
}

#[test]
fn the_first_rule_that_fits(rt: HostRuntime) -> Result<(), Fail> {
    let alloc = rt.alloc();
    let deep = Value::List(pair(alloc, future(alloc, 2)?, Value::Nothing)?);
    let deep = Value::List(pair(alloc, deep, too_large(alloc)?)?);
    for (arguments, text) in [
        (pair(alloc, deep, future(alloc, 2)?)?, "TypeError"),
        (pair(alloc, too_large(alloc)?, output(alloc, 2)?)?, "2 "),
        (
            pair(alloc, future(alloc, 1)?, too_large(alloc)?)?,
            "SizeError",
        ),
        (pair(alloc, future(alloc, 1)?, output(alloc, 1)?)?, "runs"),
    ] {
        assert_eq!(rt; verdict(alloc, arguments.as_slice())?.as_str(), text);
    }
    Ok(())
}

/// A monitor that keeps what it is told.
#[derive(Drop)]
struct Ledger {
    alloc: Global,
    settlements: ListOf<Settlement>,
}

impl Ledger {
    fn new(alloc: Global) -> Ledger {
        Ledger {
            alloc,
            settlements: ListOf::new(alloc),
        }
    }
}

impl Monitor for Ledger {
    ghost told = { λ ledger. ledger.settlements };

    fn settled(&mut self, settlement: &Settlement) -> Result<(), AllocError> {
        let settlement = Settlement {
            path: settlement.path.copy(self.alloc)?,
            status: settlement.status,
            outcome: settlement.outcome.copy(self.alloc)?,
        };
        self.settlements.push(settlement)
    }
}

fn paths(alloc: Global, numbers: &[u32]) -> Result<Paths, AllocError>
    ensures { IfOk result (λ paths. paths ≡ map (λ n. n ∷ []) numbers.now) }
{
    let mut paths = Paths::new(alloc);
    for &number in numbers {
        paths.push(path(alloc, number)?)?;
    }
    Ok(paths)
}

fn add(
    alloc: Global,
    graph: &mut Graph<Ledger>,
    task: u32,
    inputs: &[u32],
) -> Result<(), AllocError>
    requires { CanAdd graph.old (task ∷ []) (map (λ n. n ∷ []) inputs.now) }
    ensures { OnOk result (graph.new ≡ with_task (task ∷ []) (map (λ n. n ∷ []) inputs.now) graph.old) }
{
    let path = path(alloc, task)?;
    let inputs = paths(alloc, inputs)?;
    graph.add(alloc, &path, inputs.as_slice())
}

/// Tasks 1 and 2 wait for 0, and 3 for both. Each task's path is its number.
fn diamond(alloc: Global) -> Result<Graph<Ledger>, AllocError>
    ensures paths { IfOk result (λ graph. graph.paths ≡ (0 ∷ []) ∷ (1 ∷ []) ∷ (2 ∷ []) ∷ (3 ∷ []) ∷ []) }
    ensures states { IfOk result (λ graph. graph.callbacks.states ≡ state.Open ∷ state.Open ∷ state.Open ∷ state.Open ∷ []) }
    ensures told { IfOk result (λ graph. graph.told ≡ []) }
{
    let mut graph = Graph::new(alloc);
    add(alloc, &mut graph, 0, &[])?;
    add(alloc, &mut graph, 1, &[0])?;
    add(alloc, &mut graph, 2, &[0])?;
    add(alloc, &mut graph, 3, &[1, 2])?;
    Ok(graph)
}

fn next(graph: &mut Graph<Ledger>) -> Option<Callback>
    ensures paths { graph.new.paths ≡ graph.old.paths }
    ensures states { graph.new.callbacks.states ≡ graph.old.callbacks.states }
{
    graph.next_callback()
}

/// Writes what is to be done now.
fn write_ready(
    alloc: Global,
    graph: &mut Graph<Ledger>,
    text: &mut String,
) -> Result<(), AllocError>
    ensures paths { graph.new.paths ≡ graph.old.paths }
    ensures states { graph.new.callbacks.states ≡ graph.old.callbacks.states }
{
    for _turn in 0..4 {
        if let Some(callback) = next(graph) {
            text.push_str(format!(in alloc; "{callback:?} ")?.as_str())?;
        }
    }
    text.push_str("| ")
}

fn settlement(alloc: Global, task: u32, fails: bool) -> Result<Settlement, AllocError>
    ensures path { IfOk result (λ s. s.path ≡ task ∷ []) }
    ensures state { IfOk result (λ s. state_of s.outcome ≡ (if fails then state.Failed else state.Value)) }
{
    let path = path(alloc, task)?;
    if fails {
        return Ok(Settlement {
            path,
            status: Status::Failed,
            outcome: Outcome::Failed(Exception::ZeroDivisionError),
        });
    }
    Ok(Settlement {
        path,
        status: Status::ExecDone,
        outcome: Outcome::Value {
            value: Value::Int(7),
            files: Files::new(alloc),
        },
    })
}

/// Settles a task, and writes what is to be done then.
fn settle(
    alloc: Global,
    graph: &mut Graph<Ledger>,
    task: u32,
    fails: bool,
    text: &mut String,
) -> Result<(), AllocError>
    requires is { place_in graph.old.paths (task ∷ []) ≡ Some task }
    requires opened { is_open (state_in graph.old.callbacks.states task) ≡ true }
    ensures paths { OnOk result (graph.new.paths ≡ graph.old.paths) }
    ensures states { OnOk result (graph.new.callbacks.states ≡ slice_set graph.old.callbacks.states task (if fails then state.Failed else state.Value)) }
{
    let settlement = settlement(alloc, task, fails)?;
    graph.settled(&settlement)?;
    write_ready(alloc, graph, text)
}

/// What is to be done at first, and after each settlement, where task 2 may fail.
fn ready_in_diamond(alloc: Global, fails: bool) -> Result<String, AllocError> {
    let mut text = String::new(alloc);
    let mut graph = diamond(alloc)?;
    write_ready(alloc, &mut graph, &mut text)?;
    settle(alloc, &mut graph, 0, false, &mut text)?;
    settle(alloc, &mut graph, 2, fails, &mut text)?;
    settle(alloc, &mut graph, 1, false, &mut text)?;
    Ok(text)
}

#[test]
fn callbacks_of_a_diamond(rt: HostRuntime) -> Result<(), Fail> {
    for (fails, text) in [
        (false, "Launch(0) | Launch(1) Launch(2) | | Launch(3) | "),
        (true, "Launch(0) | Launch(1) Launch(2) | | DepFail(3) | "),
    ] {
        assert_eq!(rt; ready_in_diamond(rt.alloc(), fails)?.as_str(), text);
    }
    Ok(())
}

/// Stores the end of a task's join, and writes what is to be done then.
fn wait_join(
    alloc: Global,
    graph: &mut Graph<Ledger>,
    task: u32,
    returned: &[u32],
    text: &mut String,
) -> Result<(), AllocError>
    requires is { place_in graph.old.paths (task ∷ []) ≡ Some task }
    requires there { AreThere graph.old.paths (map (λ n. n ∷ []) returned.now) }
    requires distinct { AreDistinct (map (λ n. n ∷ []) returned.now) }
    ensures paths { OnOk result (graph.new.paths ≡ graph.old.paths) }
    ensures states { OnOk result (graph.new.callbacks.states ≡ graph.old.callbacks.states) }
{
    let path = path(alloc, task)?;
    let returned = paths(alloc, returned)?;
    graph.wait_join(alloc, &path, returned.as_slice())?;
    write_ready(alloc, graph, text)
}

/// Task 0 waits for 1 and 2, and once more for none.
fn ready_in_join(alloc: Global) -> Result<String, AllocError> {
    let mut text = String::new(alloc);
    let mut graph = diamond(alloc)?;
    wait_join(alloc, &mut graph, 0, &[1, 2], &mut text)?;
    settle(alloc, &mut graph, 1, true, &mut text)?;
    settle(alloc, &mut graph, 2, false, &mut text)?;
    wait_join(alloc, &mut graph, 0, &[], &mut text)?;
    Ok(text)
}

#[test]
fn the_end_of_a_join(rt: HostRuntime) -> Result<(), Fail> {
    let text = "Launch(0) | | DepFail(3) JoinDone(0) | JoinDone(0) | ";
    assert_eq!(rt; ready_in_join(rt.alloc())?.as_str(), text);
    Ok(())
}

/// The tasks that a monitor was told of.
fn write_told(alloc: Global, ledger: &Ledger, text: &mut String) -> Result<(), AllocError> {
    for settlement in ledger.settlements.as_slice() {
        for number in settlement.path.as_slice() {
            text.push_str(format!(in alloc; "{number} ")?.as_str())?;
        }
    }
    text.push_str("| ")
}

fn two_ledgers(alloc: Global) -> Result<Vec<Ledger>, AllocError> {
    let mut ledgers = Vec::new(alloc);
    ledgers.reserve(2)?;
    ledgers.push_reserved(Ledger::new(alloc));
    ledgers.push_reserved(Ledger::new(alloc));
    Ok(ledgers)
}

/// What two monitors are told, where tasks 2 and 0 settle.
fn told_to_two(alloc: Global) -> Result<String, AllocError> {
    let mut graph = diamond(alloc)?;
    graph.add_monitors(two_ledgers(alloc)?);
    let mut ready = String::new(alloc);
    settle(alloc, &mut graph, 2, false, &mut ready)?;
    settle(alloc, &mut graph, 0, true, &mut ready)?;
    let mut text = String::new(alloc);
    for ledger in graph.into_monitors().as_slice() {
        write_told(alloc, ledger, &mut text)?;
    }
    Ok(text)
}

#[test]
fn each_monitor_is_told_once(rt: HostRuntime) -> Result<(), Fail> {
    assert_eq!(rt; told_to_two(rt.alloc())?.as_str(), "2 0 | 2 0 | ");
    Ok(())
}
