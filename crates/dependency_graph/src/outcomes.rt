//! The outcomes that are known.

ghost use Rattle.std.specs.Prelude.{◌≡◌};
ghost use Rattle.std.specs.Option.{option_copied};
ghost use Rattle.flow_meaning.specs.Sequential.{Tasks, outcome_at};

use flow_base::{Outcome, Path};

/// The outcomes of tasks, by their paths.
pub trait Outcomes {
    /// The tasks that are settled, as definitions see them.
    ghost tasks: { Self → Tasks };

    /// The outcome of a task, or none where it isn't settled or isn't there.
    fn outcome(&self, path: &Path) -> Option<&Outcome>
        ensures { option_copied result ≡ outcome_at (tasks self.now) path.now };
}
