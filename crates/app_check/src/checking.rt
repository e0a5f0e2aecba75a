//! Checks a script by its static rules.

ghost use Rattle.std.specs.Prelude.{◌≡◌, IfOk};
ghost use Rattle.app_check.specs.Checking.{Checks, least_of};

use crate::checker::Checker;
use crate::definition::see_script;
use crate::fault::Fault;
use app_index::Apps;
use script_tree::Rule;
use script_tree::checked::Checked;
use script_tree::script::Script;
use std::alloc::{AllocError, Global};
use thiserror::Error;

/// Why a script was not accepted.
#[derive(Debug, Drop, Error)]
pub enum CheckFault {
    /// The rule is broken at the token of this place.
    #[error("rule {} is broken at byte {place}", kind.number())]
    Refused { kind: Rule, place: u32 },
    #[error("out of memory")]
    NoMemory,
}

impl From<AllocError> for CheckFault {
    ghost use Rattle.std.specs.Prelude.{◌≡◌};
    ghost use Rattle.app_check.specs.declared.checking.CheckFault.TheVariants.{NoMemory};

    ghost from_gives = { λ _ e. e ≡ NoMemory };

    fn from(_: AllocError) -> CheckFault {
        CheckFault::NoMemory
    }
}

// The least fault of a script.
fn least_fault(alloc: Global, script: &Script) -> Result<Option<Fault>, AllocError>
    ensures { IfOk result (λ least. least ≡ least_of script.now) }
{
    match Apps::of(alloc, script.apps()) {
        Err(fault) => Err(fault),
        Ok(apps) => {
            let mut checker = Checker::new(alloc, apps, script.places());
            see_script(&mut checker, alloc, script.apps(), script.main())?;
            Ok(checker.least())
        }
    }
}

/// Accepts a script that breaks no static rule; else tells the broken rule at the least place, and
/// there that of the least number.
pub fn check(alloc: Global, script: Script) -> Result<Checked, CheckFault>
    ensures { Checks script result }
{
    match least_fault(alloc, &script)? {
        None => Ok(Checked::of(script)),
        Some((place, kind)) => Err(CheckFault::Refused { kind, place }),
    }
}
