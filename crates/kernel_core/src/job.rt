//! Jobs: attempts that were fetched, and their ends.

ghost use Rattle.std.specs.Prelude.{◌≡◌, IfOk};
ghost use Rattle.history_laws.specs.Tables.{kind_of};
ghost use Rattle.kernel_model.specs.Turns.{IsEndOf};
ghost use Rattle.kernel_core.specs.Jobs.{FitsApps};

use app_eval::apply;
use compiled_script::CompiledScript;
use flow_base::{Ended, Items, Names, Path, Text};
use std::alloc::{AllocError, Global};
use std::marker::Model;

/// An attempt that was started, with all that its evaluation takes. `Kernel::fetch` makes it.
#[derive(Drop)]
pub struct Job {
    pub(crate) path: Path,
    pub(crate) attempt: u32,
    pub(crate) manager: u32,
    pub(crate) app: u32,
    pub(crate) arguments: Items,
    pub(crate) names: Names,
}

impl Model for Job {
    ghost use Rattle.flow_base.specs.contracts.value.Value as value;
    ghost use Rattle.std.specs.Coded.{codes};
    ghost use Rattle.kernel_model.specs.Jobs.{JobView};

    ghost Value = { JobView };

    ghost coded = { Prim.hlevel (codes, value.the_row.coded) };

    ghost view = { λ j. record { path = j.path; attempt = j.attempt; manager = j.manager; app = j.app; arguments = j.arguments; names = j.names } };
}

/// A job with how its body ended. `Job::run` makes it.
#[derive(Drop)]
pub struct Done {
    pub(crate) job: Job,
    pub(crate) ended: Ended,
    // The word for the end in the log.
    pub(crate) word: Text,
}

impl Model for Done {
    ghost use Rattle.std.specs.Prelude.{◌≡◌};
    ghost use Rattle.flow_base.specs.contracts.value.Value as value;
    ghost use Rattle.std.specs.Coded.{codes};
    ghost use Rattle.history_laws.specs.Tables.{kind_of};
    ghost use Rattle.kernel_model.specs.Jobs.{DoneView};

    ghost Value = { DoneView };

    ghost coded = { Prim.hlevel (codes, value.the_row.coded) };

    ghost view = { λ d. record { job = d.job; ended = d.ended } };

    ghost invariant = { λ d. d.word ≡ kind_of d.ended };
}

impl Job {
    /// The path of its task.
    pub fn path(&self) -> &Path
        ensures { result.now ≡ self.now.path }
    {
        &self.path
    }

    /// The number of its app in the script.
    pub fn app(&self) -> u32
        ensures { result ≡ self.now.app }
    {
        self.app
    }

    /// Evaluates the body. Where memory is wanting the job is given up.
    pub fn run(self, alloc: Global, script: &CompiledScript) -> Result<Done, AllocError>
        requires { FitsApps script.now.tree.0 self }
        ensures job { IfOk result (λ done. done.job ≡ self) }
        ensures end { IfOk result (λ done. IsEndOf script.now.tree.0 done) }
    {
        let ended = apply(alloc, script, self.app, &self.arguments, &self.names)?;
        let word = word_of(alloc, &ended)?;
        Ok(Done {
            job: self,
            ended,
            word,
        })
    }
}

/// The word for how a body ended.
fn word_of(alloc: Global, ended: &Ended) -> Result<Text, AllocError>
    ensures { IfOk result (λ word. word ≡ kind_of ended.now) }
{
    match ended {
        Ended::Value { .. } => Text::of(alloc, "value"),
        Ended::Raised(exception) => Text::of(alloc, exception.name()),
    }
}
