//! What a callback is to do.

ghost use Rattle.std.specs.Prelude.{◌≡◌};
ghost use Rattle.std.specs.List.{list_any};
ghost use Rattle.dependency_graph.specs.declared.callback.CallbackKind.TheVariants as kind;
ghost use Rattle.dependency_graph.specs.Callbacks.{to_do as definition, to_do_by, has_failed, state_in};

use crate::callback::{Callback, CallbackKind, FutureState, StoredCallback};

/// A launch, or that an input has failed; or the end of a join.
pub fn to_do(states: &[FutureState], callback: &StoredCallback) -> Callback
    ensures { result ≡ definition states.now callback.now }
{
    match callback.kind {
        CallbackKind::Join => Callback::JoinDone(callback.task),
        CallbackKind::Launch => launch(
            any_failed(states, callback.inputs.as_slice()),
            callback.task,
        ),
    }
}

fn launch(failed: bool, task: usize) -> Callback
    ensures { result ≡ to_do_by kind.Launch failed task }
{
    if failed {
        Callback::DepFail(task)
    } else {
        Callback::Launch(task)
    }
}

fn any_failed(states: &[FutureState], tasks: &[usize]) -> bool
    ensures { result ≡ list_any (λ n. has_failed (state_in states.now n)) tasks.now }
{
    for &n in tasks {
        if has_failed(states, n) {
            return true;
        }
    }
    false
}

fn has_failed(states: &[FutureState], n: usize) -> bool
    ensures { result ≡ has_failed (state_in states.now n) }
{
    match states.get(n) {
        Some(state) => *state == FutureState::Failed,
        None => true,
    }
}
