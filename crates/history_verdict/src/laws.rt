//! The laws, each a test of one entry against the entries before it, of which the oldest stands first.

ghost use Rattle.std.specs.Prelude.{◌≡◌, ◌+◌, ◌↔◌, ◌∷◌, [], suc, true, IsTrue, Some, None, reverse, option_map};
ghost use Rattle.history_laws.specs.declared.table.Expected.{Expected};
ghost use Rattle.history_laws.specs.Tables.{task_at};
ghost use Rattle.history_laws.specs.Laws.{AllSettled, SubmitStands, state_with, SettledStands, IsOver, IsFree, OwnStands, SettlingStands, SettlingLaw, AllValued, LaunchStands, JoinRunStands, HitStands, StoredStands, SettlesStored, LaunchLaw, MayFollow, AttemptFollows, IsOut, AttemptEnds, MaySettle, AttemptsSettle, AttemptLaw, ManagerLaw, is_of_managers};
ghost use Rattle.history_laws.specs.Reads.{is_submitted, settled, has_joined, launches, Waiting, Running, stage, last_try, costs, has_hit};
ghost use Rattle.call_rules.specs.Calls.{child};
ghost use Rattle.history_verdict.specs.Calls.{IsCall, IsNextChild};
ghost use Rattle.history_verdict.specs.Rows.{AllOver};

use crate::reads::{
    Progress, Submitting, costs, due, has_end, has_hit, has_joined, has_value, is_submitted,
    last_attempt, last_try, launches, settled, submits,
};
use crate::rows::{all_settled, all_valued, calls_at, calls_in, has_waited, stored_key, task_at};
use event_log::Entry;
use flow_base::{Path, Text};
use history_laws::{Expected, Retries, Table};
use task_record::Status;

// Whether this is the number of the call behind so many others.
fn is_number(number: u32, calls: usize) -> bool
    ensures { IsTrue result ↔ (number ≡ suc calls) }
{
    number > 0 && (number - 1) as usize == calls
}

// Whether this is the path of main's next call.
fn is_next(path: &Path, calls: usize) -> bool
    ensures { IsTrue result ↔ (path.now ≡ suc calls ∷ []) }
{
    match path.as_slice() {
        [number] => is_number(*number, calls),
        _ => false,
    }
}

fn is_of_app(table: &Table, path: &Path, app: &Text) -> bool
    ensures { IsTrue result ↔ (option_map (λ t. Expected.app t) (task_at table.now path.now) ≡ Some app.now) }
{
    match task_at(table, path) {
        Some(task) => task.app.same(app),
        None => false,
    }
}

fn submit_stands(table: &Table, before: &[Entry], path: &Path, app: &Text) -> bool
    ensures { IsTrue result ↔ SubmitStands table.now (reverse before.now) path.now app.now }
{
    let calls = submits(before);
    let acts = table.acts.as_slice();
    is_next(path, calls)
        && calls < calls_in(acts)
        && is_of_app(table, path, app)
        && has_waited(acts, calls, before)
}

// Whether the task is submitted and not settled.
fn is_open(path: &Path, before: &[Entry]) -> bool
    ensures { IsTrue result ↔ ((is_submitted path.now (reverse before.now) ≡ true) × (settled path.now (reverse before.now) ≡ None)) }
{
    is_submitted(path, before) && settled(path, before).is_none()
}

// Whether the task is no join, or its body ran and all that it returned has settled.
fn is_joined(task: &Expected, path: &Path, before: &[Entry]) -> bool
    ensures { IsTrue result ↔ (task.now.joins ≡ true → (has_joined path.now (reverse before.now) ≡ true) × AllSettled task.now.awaits (reverse before.now)) }
{
    !task.joins || (has_joined(path, before) && all_settled(task.awaits.as_slice(), before))
}

// The state in which a task settles whose outcome has this one: another where it took its value from the memo.
fn state_with(hit: bool, status: Status) -> Option<Status>
    ensures { result ≡ state_with hit status }
{
    match (hit, status) {
        (false, _) => Some(status),
        (true, Status::ExecDone) => Some(Status::MemoDone),
        (true, _) => None,
    }
}

// Whether the task settles in this state.
fn settles_in(task: &Expected, path: &Path, before: &[Entry], status: Status) -> bool
    ensures { IsTrue result ↔ (state_with (has_hit path.now (reverse before.now)) task.now.status ≡ Some status) }
{
    state_with(has_hit(path, before), task.status) == Some(status)
}

fn settled_stands(table: &Table, before: &[Entry], path: &Path, status: Status) -> bool
    ensures { IsTrue result ↔ SettledStands table.now (reverse before.now) path.now status }
{
    match task_at(table, path) {
        Some(task) => {
            is_open(path, before)
                && settles_in(task, path, before, status)
                && all_settled(task.inputs.as_slice(), before)
                && is_joined(task, path, before)
        }
        None => false,
    }
}

fn all_over(tasks: &[Expected], before: &[Entry]) -> bool
    ensures { IsTrue result ↔ AllOver tasks.now (reverse before.now) }
{
    for task in tasks {
        if !is_submitted(&task.path, before) || settled(&task.path, before).is_none() {
            return false;
        }
    }
    true
}

// Whether every task is submitted and settled.
#[tactic(auto, using(crate::proofs::Over::over_rules))]
fn is_over(table: &Table, before: &[Entry]) -> bool
    ensures { IsTrue result ↔ IsOver table.now (reverse before.now) }
{
    all_over(table.tasks.as_slice(), before)
}

// Whether no call of a join is still to be submitted.
#[tactic(auto, using(crate::proofs::Children::free_rules))]
fn is_free(table: &Table, before: &[Entry]) -> bool
    ensures { IsTrue result ↔ IsFree table.now (reverse before.now) }
{
    match due(before) {
        Some(join) => calls_at(table, join.caller) <= join.calls,
        None => true,
    }
}

fn own_stands(table: &Table, before: &[Entry], entry: &Entry) -> bool
    ensures { IsTrue result ↔ OwnStands table.now (reverse before.now) entry.now }
{
    match entry {
        Entry::Submit { path, app } => submit_stands(table, before, path, app),
        Entry::Settled { path, status } => settled_stands(table, before, path, *status),
        Entry::End => is_over(table, before),
        _ => true,
    }
}

// Whether this is the path of the call behind so many others of the join.
#[tactic(auto, using(crate::proofs::Children::child_rules))]
fn is_child(path: &Path, join: &Submitting) -> bool
    ensures { IsTrue result ↔ (path.now ≡ child join.now.caller.now join.now.calls) }
{
    match path.as_slice().split_last() {
        Some((number, caller)) => {
            is_number(*number, join.calls) && caller == join.caller.as_slice()
        }
        None => false,
    }
}

// Whether the entry is the submission of this call of the join.
fn is_call(table: &Table, join: &Submitting, entry: &Entry) -> bool
    ensures { IsTrue result ↔ IsCall table.now join.now.caller.now join.now.calls entry.now }
{
    match entry {
        Entry::Submit { path, app } => is_child(path, join) && is_of_app(table, path, app),
        _ => false,
    }
}

// Whether the entry is the next call of a join whose body ran.
fn child_stands(table: &Table, before: &[Entry], entry: &Entry) -> bool
    ensures { IsTrue result ↔ IsNextChild table.now (reverse before.now) entry.now }
{
    match due(before) {
        Some(join) => { join.calls < calls_at(table, join.caller) && is_call(table, &join, entry) }
        None => false,
    }
}

#[tactic(auto, using(crate::proofs::Children::settling_rules))]
fn settling_stands(table: &Table, before: &[Entry], entry: &Entry) -> bool
    ensures { IsTrue result ↔ SettlingStands table.now (reverse before.now) entry.now }
{
    child_stands(table, before, entry)
        || (is_free(table, before) && own_stands(table, before, entry))
}

/// Whether the entry stands by the law of settling.
pub fn settling_law(table: &Table, before: &[Entry], entry: &Entry) -> bool
    ensures { IsTrue result ↔ SettlingLaw table.now (reverse before.now) entry.now }
{
    !has_end(before) && settling_stands(table, before, entry)
}

// Whether the task is submitted and not settled, and its inputs have values.
fn is_ready(task: &Expected, path: &Path, before: &[Entry]) -> bool
    ensures { IsTrue result ↔ ((is_submitted path.now (reverse before.now) ≡ true) × (settled path.now (reverse before.now) ≡ None) × AllValued task.now.inputs (reverse before.now)) }
{
    is_open(path, before) && all_valued(task.inputs.as_slice(), before)
}

fn launch_stands(table: &Table, before: &[Entry], path: &Path) -> bool
    ensures { IsTrue result ↔ LaunchStands table.now (reverse before.now) path.now }
{
    match task_at(table, path) {
        Some(task) => {
            is_ready(task, path, before)
                && task.runs
                && stored_key(table, task, before) != Some(true)
                && !has_hit(path, before)
        }
        None => false,
    }
}

fn join_run_stands(table: &Table, before: &[Entry], path: &Path) -> bool
    ensures { IsTrue result ↔ JoinRunStands table.now (reverse before.now) path.now }
{
    match task_at(table, path) {
        Some(task) => { is_ready(task, path, before) && !has_joined(path, before) && task.joins }
        None => false,
    }
}

fn hit_stands(table: &Table, before: &[Entry], path: &Path) -> bool
    ensures { IsTrue result ↔ HitStands table.now (reverse before.now) path.now }
{
    match task_at(table, path) {
        Some(task) => {
            is_ready(task, path, before)
                && !has_hit(path, before)
                && stored_key(table, task, before) == Some(true)
        }
        None => false,
    }
}

fn stored_stands(table: &Table, before: &[Entry], path: &Path) -> bool
    ensures { IsTrue result ↔ StoredStands table.now (reverse before.now) path.now }
{
    match task_at(table, path) {
        Some(task) => { has_value(path, before) && stored_key(table, task, before) == Some(false) }
        None => false,
    }
}

// Whether the key of the task is stored, where it has one and settles with the value of its attempt.
fn settles_stored(table: &Table, before: &[Entry], path: &Path, status: Status) -> bool
    ensures { IsTrue result ↔ SettlesStored table.now (reverse before.now) path.now status }
{
    if status != Status::ExecDone {
        return true;
    }
    match task_at(table, path) {
        Some(task) => stored_key(table, task, before) != Some(false),
        None => true,
    }
}

/// Whether the entry stands by the law of launches.
pub fn launch_law(table: &Table, before: &[Entry], entry: &Entry) -> bool
    ensures { IsTrue result ↔ LaunchLaw table.now (reverse before.now) entry.now }
{
    match entry {
        Entry::Launch { path, .. } => launch_stands(table, before, path),
        Entry::JoinRun { path } => join_run_stands(table, before, path),
        Entry::MemoHit { path } => hit_stands(table, before, path),
        Entry::Stored { path } => stored_stands(table, before, path),
        Entry::Settled { path, status } => settles_stored(table, before, path, *status),
        Entry::Checkpoint { .. } => false,
        _ => true,
    }
}

// Whether a further attempt may follow.
fn may_follow(retries: &Retries, before: &[Entry], path: &Path) -> bool
    ensures { IsTrue result ↔ MayFollow retries.now.limit (costs retries.now path.now (reverse before.now)) (last_try path.now (reverse before.now)) }
{
    match last_try(path, before) {
        Progress::Unlaunched => true,
        Progress::Raised => costs(retries, path, before) <= u64::from(retries.limit),
        _ => false,
    }
}

fn attempt_follows(retries: &Retries, before: &[Entry], path: &Path, attempt: u32) -> bool
    ensures { IsTrue result ↔ AttemptFollows retries.now (reverse before.now) path.now attempt }
{
    attempt as usize == launches(path, before) + 1 && may_follow(retries, before, path)
}

fn is_out(path: &Path, before: &[Entry]) -> bool
    ensures { IsTrue result ↔ IsOut (last_try path.now (reverse before.now)) }
{
    matches!(
        last_try(path, before),
        Progress::Waiting | Progress::Running
    )
}

// Whether this is the last attempt of the task.
fn is_last(path: &Path, before: &[Entry], attempt: u32) -> bool
    ensures { IsTrue result ↔ (attempt ≡ launches path.now (reverse before.now)) }
{
    attempt as usize == launches(path, before)
}

fn attempt_ends(table: &Table, before: &[Entry], path: &Path, attempt: u32, kind: &Text) -> bool
    ensures { IsTrue result ↔ AttemptEnds table.now (reverse before.now) path.now attempt kind.now }
{
    match task_at(table, path) {
        Some(task) => {
            is_out(path, before) && is_last(path, before, attempt) && kind.same(&task.kind)
        }
        None => false,
    }
}

fn may_settle(retries: &Retries, before: &[Entry], path: &Path, status: Status) -> bool
    ensures { IsTrue result ↔ MaySettle retries.now.limit (costs retries.now path.now (reverse before.now)) (last_try path.now (reverse before.now)) status }
{
    match status {
        Status::ExecDone => last_try(path, before) == Progress::Valued,
        Status::Failed => {
            last_try(path, before) == Progress::Raised
                && costs(retries, path, before) > u64::from(retries.limit)
        }
        _ => true,
    }
}

fn attempts_settle(
    retries: &Retries,
    table: &Table,
    before: &[Entry],
    path: &Path,
    status: Status,
) -> bool
    ensures { IsTrue result ↔ AttemptsSettle retries.now (task_at table.now path.now) (reverse before.now) path.now status }
{
    match task_at(table, path) {
        Some(task) => !task.runs || may_settle(retries, before, path, status),
        None => true,
    }
}

/// Whether the entry stands by the law of attempts.
pub fn attempt_law(retries: &Retries, table: &Table, before: &[Entry], entry: &Entry) -> bool
    ensures { IsTrue result ↔ AttemptLaw retries.now table.now (reverse before.now) entry.now }
{
    match entry {
        Entry::Launch { path, attempt } => attempt_follows(retries, before, path, *attempt),
        Entry::MemoHit { path } => may_follow(retries, before, path),
        Entry::Ended {
            path,
            attempt,
            ended,
            ..
        } => attempt_ends(table, before, path, *attempt, ended),
        Entry::Settled { path, status } => attempts_settle(retries, table, before, path, *status),
        _ => true,
    }
}

fn is_waiting(path: &Path, before: &[Entry]) -> bool
    ensures { IsTrue result ↔ (stage path.now (reverse before.now) ≡ Waiting) }
{
    last_attempt(path, before) == Progress::Waiting
}

fn is_running(path: &Path, before: &[Entry]) -> bool
    ensures { IsTrue result ↔ (stage path.now (reverse before.now) ≡ Running) }
{
    last_attempt(path, before) == Progress::Running
}

// Whether the entry tells of managers, their blocks or the clock.
fn is_of_managers(entry: &Entry) -> bool
    ensures { result ≡ is_of_managers entry.now }
{
    matches!(
        entry,
        Entry::Dispatch { .. }
            | Entry::Held { .. }
            | Entry::LostTry { .. }
            | Entry::Block { .. }
            | Entry::Register { .. }
            | Entry::Refused { .. }
            | Entry::Tick { .. }
            | Entry::Beat { .. }
            | Entry::Silent { .. }
            | Entry::Lost { .. }
            | Entry::Drain { .. }
            | Entry::Drained { .. }
            | Entry::Hold { .. }
            | Entry::Scale { .. }
    )
}

/// Whether the entry stands by the law of the one manager.
pub fn manager_law(before: &[Entry], entry: &Entry) -> bool
    ensures { IsTrue result ↔ ManagerLaw (reverse before.now) entry.now }
{
    match entry {
        Entry::Start {
            path,
            attempt,
            manager,
        } => is_waiting(path, before) && is_last(path, before, *attempt) && *manager == 1,
        Entry::Ended {
            path,
            attempt,
            manager,
            ..
        } => is_running(path, before) && is_last(path, before, *attempt) && *manager == 1,
        _ => !is_of_managers(entry),
    }
}
