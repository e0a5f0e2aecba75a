//! A pass over the callbacks that wait for a task.

ghost use Rattle.std.specs.Prelude.{◌≡◌, ◌+◌, ◌-◌, ◌<◌, ◌≤◌, ◌++◌, length, nat_eq, vec_len, vec_capacity};
ghost use Rattle.dependency_graph.specs.Callbacks.{if_settled, state_in, is_open};
ghost use Rattle.dependency_graph.specs.Counts.{open_in, count_at, lowered_at, lowered, freed, AllWait};

use crate::callback::FutureState;

/// How many of these tasks are open.
pub fn count_open(states: &[FutureState], inputs: &[usize]) -> usize
    ensures { result ≡ open_in states.now inputs.now }
{
    let mut count = 0;
    for &input in inputs {
        if is_open_at(states, input) {
            count += 1;
        }
    }
    count
}

/// Whether the task is there and open.
pub fn is_open_at(states: &[FutureState], n: usize) -> bool
    ensures { result ≡ is_open (state_in states.now n) }
{
    match states.get(n) {
        Some(state) => *state == FutureState::Open,
        None => false,
    }
}

/// Each of these callbacks waits for one task less; those that wait for none are put behind the ready ones.
pub fn lower_each(waiters: &[usize], counts: &mut Vec<usize>, made: &mut Vec<usize>)
    requires room { vec_len made.old + length waiters.now ≤ vec_capacity made.old }
    requires wait { AllWait waiters.now counts.old.items }
    ensures counts { counts.new.items ≡ lowered waiters.now counts.old.items }
    ensures made { made.new.items ≡ made.old.items ++ freed waiters.now counts.old.items }
{
    for &c in waiters {
        lower(c, counts, made);
    }
}

fn lower(c: usize, counts: &mut Vec<usize>, made: &mut Vec<usize>)
    requires room { vec_len made.old < vec_capacity made.old }
    requires waits { 0 < count_at counts.old.items c }
    ensures counts { counts.new.items ≡ lowered_at counts.old.items c }
    ensures made { made.new.items ≡ made.old.items ++ if_settled (nat_eq (count_at counts.old.items c - 1) 0) c }
    ensures room { vec_len made.new ≤ vec_len made.old + 1 }
    ensures capacity { vec_capacity made.new ≡ vec_capacity made.old }
{
    counts[c] -= 1;
    push_if(counts[c] == 0, c, made);
}

/// Puts the callback behind the ready ones, if it is ready.
pub fn push_if(is_ready: bool, c: usize, made: &mut Vec<usize>)
    requires { vec_len made.old < vec_capacity made.old }
    ensures made { made.new.items ≡ made.old.items ++ if_settled is_ready c }
    ensures room { vec_len made.new ≤ vec_len made.old + 1 }
    ensures capacity { vec_capacity made.new ≡ vec_capacity made.old }
{
    if is_ready {
        made.push_reserved(c);
    }
}
