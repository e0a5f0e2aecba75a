//! What is read from the entries before one, of which the oldest stands first.

ghost use Rattle.std.specs.Prelude.{◌≡◌, ℕ, ◌+◌, ◌-◌, ◌^◌, ◌<◌, ◌≤◌, ◌∷◌, min, length, reverse, bytes_eq, if◌then◌else◌, true};
ghost use Rattle.history_verdict.specs.Progress.{progress_of};
ghost use Rattle.history_verdict.specs.Calls.{due_of, calls_of};
ghost use Rattle.history_laws.specs.Reads.{History, value_word, is_submitted, is_of_main, submits, settled, has_joined, due, launches, Over, stage, last_try, cost_in, cost, costs, has_hit, has_value, has_end};

use event_log::Entry;
use flow_base::{Path, Text};
use history_laws::{Retries, RetryCost};
use task_record::Status;

/// Whether both are the path of one task.
pub fn same_path(path: &Path, other: &Path) -> bool
    ensures { result ≡ bytes_eq path.now other.now }
{
    path.as_slice() == other.as_slice()
}

// The same with one more entry.
fn submitted_with(entry: &Entry, path: &Path, earlier: bool) -> bool
    ensures { (b : History) → earlier ≡ is_submitted path.now b → result ≡ is_submitted path.now (entry.now ∷ b) }
{
    match entry {
        Entry::Submit { path: other, .. } => same_path(path, other) || earlier,
        _ => earlier,
    }
}

/// Whether the task is submitted.
pub fn is_submitted(path: &Path, before: &[Entry]) -> bool
    ensures { result ≡ is_submitted path.now (reverse before.now) }
{
    let mut submitted = false;
    for entry in before {
        submitted = submitted_with(entry, path, submitted);
    }
    submitted
}

fn is_of_main(path: &Path) -> bool
    ensures { result ≡ is_of_main path.now }
{
    matches!(path.as_slice(), [_])
}

fn is_main_call(entry: &Entry) -> bool
    ensures { (b : History) → submits (entry.now ∷ b) ≡ (if result then submits b + 1 else submits b) }
{
    match entry {
        Entry::Submit { path, .. } => is_of_main(path),
        _ => false,
    }
}

/// How many calls of main are submitted.
pub fn submits(before: &[Entry]) -> usize
    ensures count { result ≡ submits (reverse before.now) }
    ensures most { result ≤ length before.now }
{
    let mut count = 0;
    for entry in before {
        if is_main_call(entry) {
            count += 1;
        }
    }
    count
}

// The same with one more entry.
fn settled_with(entry: &Entry, path: &Path, earlier: Option<Status>) -> Option<Status>
    ensures { (b : History) → earlier ≡ settled path.now b → result ≡ settled path.now (entry.now ∷ b) }
{
    match entry {
        Entry::Settled {
            path: other,
            status,
        } if same_path(path, other) => Some(*status),
        _ => earlier,
    }
}

/// The state in which the task is settled.
pub fn settled(path: &Path, before: &[Entry]) -> Option<Status>
    ensures { result ≡ settled path.now (reverse before.now) }
{
    let mut state = None;
    for entry in before {
        state = settled_with(entry, path, state);
    }
    state
}

fn is_join_run(entry: &Entry, path: &Path) -> bool
    ensures { (b : History) → has_joined path.now (entry.now ∷ b) ≡ (if result then true else has_joined path.now b) }
{
    match entry {
        Entry::JoinRun { path: other } => same_path(path, other),
        _ => false,
    }
}

/// Whether the body of the join ran.
pub fn has_joined(path: &Path, before: &[Entry]) -> bool
    ensures { result ≡ has_joined path.now (reverse before.now) }
{
    let mut joined = false;
    for entry in before {
        joined = is_join_run(entry, path) || joined;
    }
    joined
}

/// A join whose body ran, and how many of its calls are submitted since.
#[derive(Clone, Copy)]
pub struct Submitting<'a> {
    pub caller: &'a Path,
    pub calls: usize,
}

// The same with one more entry.
fn due_with<'a>(entry: &'a Entry, earlier: Option<Submitting<'a>>) -> Option<Submitting<'a>>
    requires few { calls_of earlier < 2 ^ 64 - 1 }
    ensures is { (b : History) → due_of earlier.entry ≡ due b → due_of result ≡ due (entry.now ∷ b) }
    ensures most { calls_of result ≤ calls_of earlier.entry + 1 }
{
    match entry {
        Entry::JoinRun { path } => Some(Submitting {
            caller: path,
            calls: 0,
        }),
        Entry::Submit { .. } => match earlier {
            Some(join) => Some(Submitting {
                caller: join.caller,
                calls: join.calls + 1,
            }),
            None => None,
        },
        _ => None,
    }
}

/// The join whose calls are being submitted, where nothing else stands behind its run.
pub fn due(before: &[Entry]) -> Option<Submitting<'_>>
    ensures { due_of result ≡ due (reverse before.now) }
{
    let mut join = None;
    for entry in before {
        join = due_with(entry, join);
    }
    join
}

fn is_launch(entry: &Entry, path: &Path) -> bool
    ensures { (b : History) → launches path.now (entry.now ∷ b) ≡ (if result then launches path.now b + 1 else launches path.now b) }
{
    match entry {
        Entry::Launch { path: other, .. } => same_path(path, other),
        _ => false,
    }
}

/// How many attempts of the task are launched.
pub fn launches(path: &Path, before: &[Entry]) -> usize
    ensures count { result ≡ launches path.now (reverse before.now) }
    ensures most { result ≤ length before.now }
{
    let mut count = 0;
    for entry in before {
        if is_launch(entry, path) {
            count += 1;
        }
    }
    count
}

/// Where the last attempt of a task stands.
#[derive(Clone, Copy, PartialEq, Eq, Debug)]
pub enum Progress {
    /// There is none.
    Unlaunched,
    /// It waits for a worker.
    Waiting,
    Running,
    /// It ended with a value.
    Valued,
    /// It ended with an exception.
    Raised,
}

// Whether an attempt that ended so has a value.
fn is_value(kind: &Text) -> bool
    ensures { result ≡ bytes_eq kind.now value_word }
{
    kind.as_str() == "value"
}

fn ended_so(kind: &Text) -> Progress
    ensures { result ≡ progress_of (Over kind.now) }
{
    if is_value(kind) {
        Progress::Valued
    } else {
        Progress::Raised
    }
}

// The same with one more entry.
fn progress_with(entry: &Entry, path: &Path, earlier: Progress) -> Progress
    ensures { (b : History) → earlier ≡ progress_of (stage path.now b) → result ≡ progress_of (stage path.now (entry.now ∷ b)) }
{
    match entry {
        Entry::Launch { path: other, .. } if same_path(path, other) => Progress::Waiting,
        Entry::Start { path: other, .. } if same_path(path, other) => Progress::Running,
        Entry::Ended {
            path: other,
            ended,
            ..
        } if same_path(path, other) => ended_so(ended),
        _ => earlier,
    }
}

/// Where the last attempt of the task stands.
pub fn last_attempt(path: &Path, before: &[Entry]) -> Progress
    ensures { result ≡ progress_of (stage path.now (reverse before.now)) }
{
    let mut progress = Progress::Unlaunched;
    for entry in before {
        progress = progress_with(entry, path, progress);
    }
    progress
}

// The same with one more entry.
fn try_with(entry: &Entry, path: &Path, earlier: Progress) -> Progress
    ensures { (b : History) → earlier ≡ progress_of (last_try path.now b) → result ≡ progress_of (last_try path.now (entry.now ∷ b)) }
{
    match entry {
        Entry::Launch { path: other, .. } if same_path(path, other) => Progress::Waiting,
        Entry::Ended {
            path: other,
            ended,
            ..
        } if same_path(path, other) => ended_so(ended),
        _ => earlier,
    }
}

/// The same without the starts.
pub fn last_try(path: &Path, before: &[Entry]) -> Progress
    ensures { result ≡ progress_of (last_try path.now (reverse before.now)) }
{
    let mut progress = Progress::Unlaunched;
    for entry in before {
        progress = try_with(entry, path, progress);
    }
    progress
}

fn cost_in(costs: &[RetryCost], name: &Text) -> u32
    ensures { result ≡ cost_in costs.now name.now }
{
    for cost in costs {
        if cost.name.same(name) {
            return cost.cost;
        }
    }
    100
}

fn cost(retries: &Retries, kind: &Text) -> u32
    ensures { result ≡ cost retries.now kind.now }
{
    if is_value(kind) {
        0
    } else {
        cost_in(retries.costs.as_slice(), kind)
    }
}

// The same with one more entry.
fn costs_with(entry: &Entry, retries: &Retries, path: &Path, earlier: u64) -> u64
    ensures { (b : History) → earlier ≡ min (costs retries.now path.now b) (2 ^ 64 - 1) → result ≡ min (costs retries.now path.now (entry.now ∷ b)) (2 ^ 64 - 1) }
{
    match entry {
        Entry::Ended {
            path: other,
            ended,
            ..
        } if same_path(path, other) => earlier.saturating_add(u64::from(cost(retries, ended))),
        _ => earlier,
    }
}

/// What the attempts of the task that ended cost together, or the greatest number where that is more.
pub fn costs(retries: &Retries, path: &Path, before: &[Entry]) -> u64
    ensures { result ≡ min (costs retries.now path.now (reverse before.now)) (2 ^ 64 - 1) }
{
    let mut sum = 0;
    for entry in before {
        sum = costs_with(entry, retries, path, sum);
    }
    sum
}

fn is_hit(entry: &Entry, path: &Path) -> bool
    ensures { (b : History) → has_hit path.now (entry.now ∷ b) ≡ (if result then true else has_hit path.now b) }
{
    match entry {
        Entry::MemoHit { path: other } => same_path(path, other),
        _ => false,
    }
}

/// Whether the task took its value from the memo.
pub fn has_hit(path: &Path, before: &[Entry]) -> bool
    ensures { result ≡ has_hit path.now (reverse before.now) }
{
    let mut hit = false;
    for entry in before {
        hit = is_hit(entry, path) || hit;
    }
    hit
}

fn ends_with_value(entry: &Entry, path: &Path) -> bool
    ensures { (b : History) → has_value path.now (entry.now ∷ b) ≡ (if result then true else has_value path.now b) }
{
    match entry {
        Entry::Ended {
            path: other,
            ended,
            ..
        } => same_path(path, other) && is_value(ended),
        _ => false,
    }
}

/// Whether an attempt of the task ended with a value.
pub fn has_value(path: &Path, before: &[Entry]) -> bool
    ensures { result ≡ has_value path.now (reverse before.now) }
{
    let mut valued = false;
    for entry in before {
        valued = ends_with_value(entry, path) || valued;
    }
    valued
}

fn is_end(entry: &Entry) -> bool
    ensures { (b : History) → has_end (entry.now ∷ b) ≡ (if result then true else has_end b) }
{
    matches!(entry, Entry::End)
}

/// Whether the end is among them.
pub fn has_end(before: &[Entry]) -> bool
    ensures { result ≡ has_end (reverse before.now) }
{
    let mut ended = false;
    for entry in before {
        ended = is_end(entry) || ended;
    }
    ended
}
