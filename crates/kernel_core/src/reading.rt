//! What is read from the tasks of a kernel.

ghost use Rattle.kernel_core.specs.Tasks.{tasks_by};

use crate::task::Task;
use dependency_graph::{Outcomes, PathTable};
use flow_base::{Outcome, Path};

/// The tasks of a kernel, with the outcomes of those that are settled.
#[derive(Drop)]
pub struct Settled<'a> {
    pub tasks: &'a [Task],
    /// Their paths.
    pub places: &'a PathTable,
}

impl Outcomes for Settled<'_> {
    ghost tasks = { λ s. tasks_by s.places.now s.tasks.now };

    fn outcome(&self, path: &Path) -> Option<&Outcome> {
        let k = self.places.place(path)?;
        self.tasks.get(k)?.outcome()
    }
}
