//! Runs whose turns are taken in a given order.

ghost use Rattle.std.specs.Prelude.{◌≡◌, ◌<◌, ◌^◌, false, length};
ghost use Rattle.std.specs.Arc.{arc_value};
ghost use Rattle.kernel_model.specs.Known.{has_ended};
ghost use Rattle.parsl_engine.specs.Scripts.{IsOfText};

use event_log::{Entries, print_log};
use kernel_core::{Kernel, Ledger, Opening, Refusal, ScriptTurn};
use parsl_engine::run_attempt;
use parsl_engine::script::read_script;
use run_report::head;
use script_tree::checked::Checked;
use std::alloc::{AllocError, Global};
use std::sync::Arc;

/// In which order the kinds of turns are tried.
#[derive(Clone, Copy)]
pub enum Order {
    FirstToLast,
    LastToFirst,
    /// Each round begins with another kind.
    Rotating,
}

// One turn of this kind, or a whole attempt. Whether it did something.
fn turn(alloc: Global, kernel: &mut Kernel<Ledger>, kind: usize) -> Result<bool, Refusal>
    requires { has_ended kernel.old ≡ false }
{
    match kind {
        0 => Ok(matches!(kernel.script_turn()?, ScriptTurn::Advanced)),
        1 => kernel.callback_turn(),
        2 => run_attempt(alloc, kernel),
        3 => kernel.store_turn(),
        4 => kernel.settle_turn(),
        _ => kernel.end_turn(),
    }
}

// The first kind of turn, in the order of this round, that does something.
fn round(
    alloc: Global,
    kernel: &mut Kernel<Ledger>,
    order: Order,
    number: usize,
) -> Result<(), Refusal> {
    for place in 0..6 {
        let kind = match order {
            Order::FirstToLast => place,
            Order::LastToFirst => 5 - place,
            Order::Rotating => (place + number % 6) % 6,
        };
        if kernel.ended() || turn(alloc, kernel, kind)? {
            return Ok(());
        }
    }
    Ok(())
}

/// What a run gives.
#[derive(Drop)]
pub struct Given {
    pub head: Vec<u8>,
    pub log: Vec<u8>,
    pub entries: Entries,
}

/// A run of the script that has this text, with so many rounds in this order.
pub fn run_text(
    alloc: Global,
    text: &[u8],
    order: Order,
    rounds: usize,
) -> Result<Given, AllocError> {
    match read_script(alloc, text) {
        Ok(script) => run_checked(alloc, script, order, rounds),
        Err(_) => Err(AllocError),
    }
}

fn run_checked(
    alloc: Global,
    script: Checked,
    order: Order,
    rounds: usize,
) -> Result<Given, AllocError>
    requires { IsOfText script }
{
    let Ok(script) = Arc::new(alloc, script) else {
        return Err(AllocError);
    };
    run(alloc, Opening { script }, order, rounds)
}

fn run(alloc: Global, opening: Opening, order: Order, rounds: usize) -> Result<Given, AllocError>
    requires { length (arc_value opening.script).tree.0 < 2 ^ 32 }
{
    let Ok(mut kernel) = Kernel::<Ledger>::new(alloc, opening, Vec::new(alloc)) else {
        return Err(AllocError);
    };
    for number in 0..rounds {
        if round(alloc, &mut kernel, order, number).is_err() {
            return Err(AllocError);
        }
    }
    let (evaluation, entries, _) = kernel.into_parts();
    Ok(Given {
        head: head(alloc, &evaluation?)?,
        log: print_log(alloc, &entries)?,
        entries,
    })
}
