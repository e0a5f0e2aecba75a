//! How tasks begin.

ghost use Rattle.std.specs.Prelude.{◌≡◌};
ghost use Rattle.std.specs.Option.{option_copied};
ghost use Rattle.kernel_core.specs.Turned.{beginning_of};

use dependency_graph::Readiness;
use flow_base::{Exception, Items};
use script_tree::tree::AppDef;

/// How a task begins whose inputs are all settled.
#[derive(Drop)]
pub enum Beginning {
    /// It is settled at once by this exception.
    Fails(Exception),
    /// It takes its value from the memo, or an attempt of it is launched, on these values.
    Attempts(Items),
    /// Its body runs on these values.
    Joins(Items),
}

impl Beginning {
    /// By its app, whether its path has room for one more number, and what the first three rules of a call say of it.
    pub fn of(app: Option<&AppDef>, room: bool, readiness: Readiness) -> Beginning
        ensures { result ≡ beginning_of (option_copied app.entry) room readiness }
    {
        let values = match readiness {
            Readiness::Settles(exception) => return Beginning::Fails(exception),
            Readiness::Runs(values) => values,
        };
        match app {
            None => Beginning::Fails(Exception::TypeError),
            Some(app) if !app.join => Beginning::Attempts(values),
            Some(_) if room => Beginning::Joins(values),
            Some(_) => Beginning::Fails(Exception::DepthError),
        }
    }
}
