//! The sequential evaluation of a script.

ghost use Rattle.std.specs.Prelude.{◌<◌, ◌^◌, length};
ghost use Rattle.script_eval.specs.Evaluating.{Evaluates};
ghost use Rattle.script_eval.specs.Lost.{loss_at};

use crate::evaluator::Evaluator;
use crate::losses::Losses;
use crate::state::EvalState;
use compiled_script::CompiledScript;
use flow_base::Evaluation;
use std::alloc::{AllocError, Global};
use stored_units::Limit;

/// Why a script has no evaluation.
#[derive(Clone, Copy, Debug, PartialEq, Eq)]
pub enum EvalFault {
    /// It has more calls than a run may have.
    TaskLimit,
    /// It stores more units than a run may store.
    StoreLimit,
    /// An allocation was refused.
    NoMemory,
}

impl From<AllocError> for EvalFault {
    ghost use Rattle.std.specs.Prelude.{◌≡◌};
    ghost use Rattle.script_eval.specs.declared.evaluation.EvalFault.TheVariants.{NoMemory};

    ghost from_gives = { λ _ fault. fault ≡ NoMemory };

    fn from(_: AllocError) -> EvalFault {
        EvalFault::NoMemory
    }
}

impl From<Limit> for EvalFault {
    ghost use Rattle.std.specs.Prelude.{◌≡◌};
    ghost use Rattle.script_eval.specs.Faults.{fault_for};

    ghost from_gives = { λ limit fault. fault ≡ fault_for limit };

    fn from(limit: Limit) -> EvalFault {
        match limit {
            Limit::Tasks => EvalFault::TaskLimit,
            Limit::Stored => EvalFault::StoreLimit,
        }
    }
}

/// The sequential evaluation of a script, where these tasks are lost; or the limit that it meets first.
pub fn evaluate(
    alloc: Global,
    script: &CompiledScript,
    losses: &Losses,
) -> Result<Evaluation, EvalFault>
    requires { length script.now.tree.0 < 2 ^ 32 }
    ensures { Evaluates script.now.tree (loss_at losses.now) result }
{
    let evaluator = Evaluator {
        alloc,
        script,
        losses,
    };
    let mut state = EvalState::new(alloc);
    let ended = evaluator.run_main(&mut state)?;
    Ok(state.evaluation(alloc, ended)?)
}
