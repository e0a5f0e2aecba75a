//! Any turns in any order.

ghost use Rattle.std.specs.Prelude.{◌≡◌, ◌^◌, All, false, None, OnOk, IfErr};
ghost use Rattle.kernel_model.specs.Known.{has_ended, apps_in};
ghost use Rattle.kernel_model.specs.Telling.{HasTold};
ghost use Rattle.kernel_model.specs.Turns.{Extends};
ghost use Rattle.kernel_model.specs.Work.{HasRoom};
ghost use Rattle.kernel_core.specs.AnyTurns.{Holds, IsHonest, Does, Took, IsTurnRefused, IsCutOff};
ghost use Rattle.kernel_core.specs.Views.{IsFact};

use crate::job::Done;
use crate::kernel::Kernel;
use dependency_graph::Monitor;
use kernel_model::Refusal;

/// A turn of a kernel.
#[derive(Drop)]
pub enum Turn {
    Script,
    Callback,
    Fetch,
    Deliver(Done),
    Store,
    Settle,
    End,
}

impl<M: Monitor> Kernel<M> {
    /// What every kernel promises.
    pub fn facts(&self)
        ensures fact { IsFact self.now }
        ensures holds { Holds self.now }
        ensures room { HasRoom (2 ^ 64) self.now }
    {
        self.state.facts();
    }
}

/// One turn, whichever it is.
pub fn take_turn<M: Monitor>(kernel: &mut Kernel<M>, turn: Turn) -> Result<(), Refusal>
    requires going { has_ended kernel.old ≡ false }
    requires honest { IsHonest (apps_in kernel.old) turn }
    ensures does { OnOk result (Does kernel.old turn kernel.new) }
    ensures accepted { OnOk result (kernel.new.refusal ≡ None) }
    ensures refused { IfErr result (IsTurnRefused kernel.old turn kernel.new) }
    ensures extends { Extends kernel.old kernel.new }
    ensures tells { HasTold kernel.old kernel.new }
{
    kernel.facts();
    match turn {
        Turn::Script => {
            kernel.script_turn()?;
        }
        Turn::Callback => {
            kernel.callback_turn()?;
        }
        Turn::Fetch => {
            kernel.fetch()?;
        }
        Turn::Deliver(done) => {
            kernel.deliver(done);
        }
        Turn::Store => {
            kernel.store_turn()?;
        }
        Turn::Settle => {
            kernel.settle_turn()?;
        }
        Turn::End => {
            kernel.end_turn()?;
        }
    }
    Ok(())
}

/// Any turns in any order, up to the end or a refusal: they are taken one after another, the history
/// only grows at its end, it is legal, and each settled outcome is that of the sequential evaluation.
pub fn take_turns<M: Monitor>(kernel: &mut Kernel<M>, turns: Vec<Turn>) -> Result<(), Refusal>
    requires { All (IsHonest (apps_in kernel.old)) turns.items }
    ensures took { Took turns.items kernel.old kernel.new }
    ensures accepted { OnOk result (kernel.new.refusal ≡ kernel.old.refusal) }
    ensures refused { IfErr result (IsCutOff kernel.old kernel.new) }
    ensures extends { Extends kernel.old kernel.new }
    ensures tells { HasTold kernel.old kernel.new }
    ensures holds { Holds kernel.new }
{
    let answer = take_each(kernel, turns);
    kernel.facts();
    answer
}

#[tactic(auto, using(crate::proofs::Accepting::going_accepts))]
fn take_each<M: Monitor>(kernel: &mut Kernel<M>, turns: Vec<Turn>) -> Result<(), Refusal>
    requires { All (IsHonest (apps_in kernel.old)) turns.items }
    ensures took { Took turns.items kernel.old kernel.new }
    ensures accepted { OnOk result (kernel.new.refusal ≡ kernel.old.refusal) }
    ensures refused { IfErr result (IsCutOff kernel.old kernel.new) }
    ensures extends { Extends kernel.old kernel.new }
    ensures tells { HasTold kernel.old kernel.new }
{
    for turn in turns {
        if kernel.ended() {
            break;
        }
        take_turn(kernel, turn)?;
    }
    Ok(())
}
