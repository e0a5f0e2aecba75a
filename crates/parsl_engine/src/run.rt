//! A whole run on the calling thread.

ghost use Rattle.std.specs.Prelude.{◌≡◌, ◌<◌, ◌^◌, false, [], length, map, IfOk, IfErr, OnOk, OnErr};
ghost use Rattle.std.specs.Arc.{arc_value};
ghost use Rattle.history_laws.specs.Reads.{has_end};
ghost use Rattle.kernel_model.specs.Known.{has_ended, status_at};
ghost use Rattle.kernel_model.specs.Telling.{HasToldBy, settlements};
ghost use Rattle.kernel_model.specs.Work.{NoneRuns};
ghost use Rattle.parsl_engine.specs.Runs.{IsRun, RefusesFor, EndsFor, is_ended, refusal_of, refused_by};
ghost use Rattle.parsl_engine.specs.Rounds.{Keeps, AttemptTurn};
ghost use Rattle.parsl_engine.specs.Tellings.{TellsRun};

use dependency_graph::Monitor;
use event_log::Entries;
use flow_base::Evaluation;
use kernel_core::{Kernel, NotOpened, Opening, Refusal, ScriptTurn};
use std::alloc::{AllocError, Global};

/// How a run came to its end.
#[derive(Clone, Copy, Debug, PartialEq, Eq)]
pub enum PartEnd {
    /// The end stands in its history.
    Ended,
    /// A turn was refused, or the opening.
    Refused(Refusal),
}

/// What a run gives.
#[derive(Drop)]
pub struct RunEnd<M: Monitor> {
    pub end: PartEnd,
    /// The sequential evaluation, where the run ended.
    pub evaluation: Result<Evaluation, AllocError>,
    pub history: Entries,
    pub monitors: Vec<M>,
}

/// Runs a script to its end: turns of main, callbacks, attempts, stores and settlings as they come. Each monitor
/// is told of each settlement.
pub fn run_alone<M: Monitor>(alloc: Global, opening: Opening, monitors: Vec<M>) -> RunEnd<M>
    requires { length (arc_value opening.script).tree.0 < 2 ^ 32 }
    ensures run { IsRun (arc_value opening.script).tree result.end result.evaluation result.history }
    ensures tells { TellsRun (arc_value opening.script).tree (refusal_of result.end) result.history (map M.told monitors.items) (map M.told result.monitors.items) }
{
    match Kernel::new(alloc, opening, monitors) {
        Err(not_opened) => {
            let NotOpened { refusal, monitors } = not_opened;
            RunEnd {
                end: PartEnd::Refused(refusal),
                evaluation: Err(AllocError),
                history: Entries::new(alloc),
                monitors,
            }
        }
        Ok(kernel) => run_kernel(alloc, kernel),
    }
}

fn run_kernel<M: Monitor>(alloc: Global, mut kernel: Kernel<M>) -> RunEnd<M>
    requires going { has_ended kernel ≡ false }
    requires still { NoneRuns kernel }
    requires unsettled { settlements kernel ≡ [] }
    ensures run { IsRun kernel.tree result.end result.evaluation result.history }
    ensures tells { TellsRun kernel.tree (refusal_of result.end) result.history kernel.told (map M.told result.monitors.items) }
{
    let end = run_to_end(alloc, &mut kernel);
    kernel.facts();
    let (evaluation, history, monitors) = kernel.into_parts();
    RunEnd {
        end,
        evaluation,
        history,
        monitors,
    }
}

fn run_to_end<M: Monitor>(alloc: Global, kernel: &mut Kernel<M>) -> PartEnd
    requires going { has_ended kernel.old ≡ false }
    requires still { NoneRuns kernel.old }
    ensures tree { kernel.new.tree ≡ kernel.old.tree }
    ensures ended { has_end kernel.new.past ≡ is_ended result }
    ensures cause { EndsFor kernel.old.tree result }
    ensures tells { HasToldBy (refusal_of result) kernel.old kernel.new }
{
    'rounds: while !kernel.ended() {
        if let Err(refusal) = round(alloc, kernel) {
            return PartEnd::Refused(refusal);
        }
    }
    PartEnd::Ended
}

// One turn, or those of one attempt.
fn round<M: Monitor>(alloc: Global, kernel: &mut Kernel<M>) -> Result<(), Refusal>
    requires going { has_ended kernel.old ≡ false }
    requires still { NoneRuns kernel.old }
    ensures tree { kernel.new.tree ≡ kernel.old.tree }
    ensures keeps { OnOk result (Keeps kernel.old kernel.new) }
    ensures unended { OnErr result (has_end kernel.new.past ≡ false) }
    ensures cause { IfErr result (RefusesFor kernel.old.tree) }
    ensures tells { HasToldBy (refused_by result) kernel.old kernel.new }
{
    kernel.facts();
    if let ScriptTurn::Advanced = kernel.script_turn()? {
        kernel.facts();
        return Ok(());
    }
    if kernel.callback_turn()? {
        kernel.facts();
        return Ok(());
    }
    if run_attempt(alloc, kernel)? {
        kernel.facts();
        return Ok(());
    }
    if kernel.store_turn()? {
        kernel.facts();
        return Ok(());
    }
    if kernel.settle_turn()? {
        kernel.facts();
        return Ok(());
    }
    match kernel.end_turn()? {
        true => {
            kernel.facts();
            Ok(())
        }
        false => unreachable!(),
    }
}

/// Fetches a job, evaluates it and delivers its end. False exactly where no attempt waits.
pub fn run_attempt<M: Monitor>(alloc: Global, kernel: &mut Kernel<M>) -> Result<bool, Refusal>
    requires { has_ended kernel.old ≡ false }
    ensures tree { kernel.new.tree ≡ kernel.old.tree }
    ensures turn { IfOk result (λ did. AttemptTurn kernel.old did kernel.new) }
    ensures unended { OnErr result (has_end kernel.new.past ≡ false) }
    ensures memory { IfErr result (λ refusal. refusal ≡ Refusal.NoMemory) }
    ensures tells { HasToldBy (refused_by result) kernel.old kernel.new }
{
    kernel.facts();
    let Some(job) = kernel.fetch()? else {
        return Ok(false);
    };
    match job.run(alloc, kernel.script()) {
        Ok(done) => {
            kernel.deliver(done);
            Ok(true)
        }
        Err(AllocError) => Err(Refusal::NoMemory),
    }
}
