//! Scripts that are read and checked.

ghost use Rattle.parsl_engine.specs.Scripts.{IsRead};

use app_check::{CheckFault, check};
use app_script::parse::{ParseFault, parse};
use script_tree::checked::Checked;
use script_tree::fault::{Rule, SyntaxFault};
use std::alloc::{AllocError, Global};
use stored_units::Limit;

/// Why a command does nothing for a script.
#[derive(Clone, Copy, Debug, PartialEq, Eq)]
pub enum ScriptRefusal {
    /// The text is no script: what is wrong with it, and the place in bytes from 0.
    Parse { kind: SyntaxFault, place: u32 },
    /// The script breaks this rule at this place.
    Check { kind: Rule, place: u32 },
}

/// Why a command has no output.
#[derive(Clone, Copy, Debug, PartialEq, Eq)]
pub enum ScriptFault {
    /// The script's bytes are the cause.
    Refused(ScriptRefusal),
    /// The script passes this limit of a run.
    Limited(Limit),
    /// An allocation was refused.
    NoMemory,
}

impl From<AllocError> for ScriptFault {
    ghost use Rattle.std.specs.Prelude.{◌≡◌};
    ghost use Rattle.parsl_engine.specs.declared.script.ScriptFault.TheVariants.{NoMemory};

    ghost from_gives = { λ _ fault. fault ≡ NoMemory };

    fn from(_: AllocError) -> ScriptFault {
        ScriptFault::NoMemory
    }
}

/// The script of a text that breaks no rule.
pub fn read_script(alloc: Global, bytes: &[u8]) -> Result<Checked, ScriptFault>
    ensures { IsRead bytes.now result }
{
    let script = match parse(alloc, bytes) {
        Ok(script) => script,
        Err(ParseFault::Refused { kind, place }) => {
            return Err(ScriptFault::Refused(ScriptRefusal::Parse { kind, place }));
        }
        Err(ParseFault::NoMemory) => return Err(ScriptFault::NoMemory),
    };
    match check(alloc, script) {
        Ok(checked) => Ok(checked),
        Err(CheckFault::Refused { kind, place }) => {
            Err(ScriptFault::Refused(ScriptRefusal::Check { kind, place }))
        }
        Err(CheckFault::NoMemory) => Err(ScriptFault::NoMemory),
    }
}
