//! What is looked up in a table, and which of its tasks have settled.

ghost use Rattle.std.specs.Prelude.{◌≡◌, ◌↔◌, ◌≤◌, ◌∷◌, if◌then◌else◌, true, IsTrue, length, reverse, option_copied, option_map};
ghost use Rattle.history_laws.specs.Laws.{AllSettled, IsValued, AllValued, calls_at, is_stored};
ghost use Rattle.history_laws.specs.Reads.{History, is_key, stores};
ghost use Rattle.history_laws.specs.Tables.{task_in, task_at, table_key, calls_in, waits_before};

use crate::reads::{same_path, settled};
use event_log::Entry;
use flow_base::Path;
use history_laws::{Expected, MainEvent, Table};
use memo_table::Key;
use task_record::Status;

fn task_in<'a>(tasks: &'a [Expected], path: &Path) -> Option<&'a Expected>
    ensures { option_copied result ≡ task_in tasks.now path.now }
{
    for task in tasks {
        if same_path(&task.path, path) {
            return Some(task);
        }
    }
    None
}

/// The task of this path.
pub fn task_at<'a>(table: &'a Table, path: &Path) -> Option<&'a Expected>
    ensures { option_copied result ≡ task_at table.now path.now }
{
    task_in(table.tasks.as_slice(), path)
}

/// How many calls the body of the task of this path makes.
pub fn calls_at(table: &Table, path: &Path) -> usize
    ensures { result ≡ calls_at table.now path.now }
{
    match task_at(table, path) {
        Some(task) => task.calls as usize,
        None => 0,
    }
}

/// How many calls main makes.
pub fn calls_in(acts: &[MainEvent]) -> usize
    ensures { result ≡ calls_in acts.now }
{
    let mut count = 0;
    for act in acts {
        if matches!(act, MainEvent::Call) {
            count += 1;
        }
    }
    count
}

/// Whether all of these have settled.
pub fn all_settled(paths: &[Path], before: &[Entry]) -> bool
    ensures { IsTrue result ↔ AllSettled paths.now (reverse before.now) }
{
    for path in paths {
        if settled(path, before).is_none() {
            return false;
        }
    }
    true
}

fn is_valued(state: Option<Status>) -> bool
    ensures { IsTrue result ↔ IsValued state }
{
    matches!(state, Some(Status::ExecDone | Status::MemoDone))
}

/// Whether all of these have settled with values.
pub fn all_valued(paths: &[Path], before: &[Entry]) -> bool
    ensures { IsTrue result ↔ AllValued paths.now (reverse before.now) }
{
    for path in paths {
        if !is_valued(settled(path, before)) {
            return false;
        }
    }
    true
}

/// Whether all has settled that main waits for before the call behind so many others.
pub fn has_waited(acts: &[MainEvent], calls: usize, before: &[Entry]) -> bool
    ensures { IsTrue result ↔ AllSettled (waits_before calls acts.now) (reverse before.now) }
{
    let mut left = calls;
    for act in acts {
        match act {
            MainEvent::Call => {
                if left == 0 {
                    return true;
                }
                left -= 1;
            }
            MainEvent::Wait(path) => {
                if settled(path, before).is_none() {
                    return false;
                }
            }
        }
    }
    true
}

fn has_key(task: &Expected, key: &Key) -> bool
    ensures { result ≡ is_key key.now task.now.key }
{
    match &task.key {
        Some(other) => key == other,
        None => false,
    }
}

// Whether the task of this path has the key.
fn is_key_at(table: &Table, path: &Path, key: &Key) -> bool
    ensures { result ≡ is_key key.now (table_key table.now path.now) }
{
    match task_at(table, path) {
        Some(task) => has_key(task, key),
        None => false,
    }
}

fn stores(entry: &Entry, table: &Table, key: &Key) -> bool
    ensures { (b : History) → stores (table_key table.now) key.now (entry.now ∷ b) ≡ (if result then true else stores (table_key table.now) key.now b) }
{
    match entry {
        Entry::Stored { path } => is_key_at(table, path, key),
        _ => false,
    }
}

fn is_stored(table: &Table, key: &Key, before: &[Entry]) -> bool
    ensures { result ≡ is_stored table.now (reverse before.now) key.now }
{
    let mut stored = false;
    for entry in before {
        stored = stores(entry, table, key) || stored;
    }
    stored
}

/// Whether the key of the task is stored, where it has one.
pub fn stored_key(table: &Table, task: &Expected, before: &[Entry]) -> Option<bool>
    ensures { result ≡ option_map (λ key. is_stored table.now (reverse before.now) key) task.now.key }
{
    match &task.key {
        Some(key) => Some(is_stored(table, key, before)),
        None => None,
    }
}
