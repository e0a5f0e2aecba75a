//! How bodies end.

ghost use Rattle.std.specs.Prelude.{◌≡◌, IfOk};
ghost use Rattle.app_eval.specs.Frames.{flow_of};
ghost use Rattle.app_eval.specs.Gives.{Tells};
ghost use Rattle.flow_meaning.specs.Sequential as sequential;
ghost use Rattle.body_program.specs.Meaning.{Store, done};
ghost use Rattle.flow_meaning.specs.Meaning as m;

use crate::frame::Flow;
use crate::operators::Failure;
use flow_base::{Ended, Exception, FileOut, Files, Text, Value};
use sqlite_items::{Items as ListOf, at};
use std::alloc::{AllocError, Global};

/// The files of a body that has ended, or MissingOutputs where one was not written.
#[tactic(auto, using(crate::proofs::Written::files_rules))]
fn files_of(alloc: Global, names: &[Text], written: &[Option<Text>]) -> Result<Files, Failure>
    ensures { Tells result (m.files_of names.now written.now) }
{
    let mut files = ListOf::new(alloc);
    for i in 0..names.len() {
        let slot = match at(written, i) {
            None => return Err(Failure::Raised(Exception::MissingOutputs)),
            Some(slot) => slot,
        };
        let content = match slot {
            None => return Err(Failure::Raised(Exception::MissingOutputs)),
            Some(content) => content,
        };
        files.push(FileOut {
            name: names[i].copy(alloc)?,
            content: content.copy(alloc)?,
        })?;
    }
    Ok(files)
}

/// The end of a body whose statements are done, with what it wrote to each output.
pub fn end_of(
    alloc: Global,
    names: &[Text],
    written: &[Option<Text>],
    flow: Flow,
) -> Result<Ended, AllocError>
    ensures { IfOk result (λ e. (s : Store) → s.written ≡ written.now → e ≡ sequential.end_of (done names.now (flow_of flow s))) }
{
    let value = match flow {
        Flow::Goes => Value::Nothing,
        Flow::Returns(value) => value,
    };
    match files_of(alloc, names, written) {
        Ok(files) => Ok(Ended::Value { value, files }),
        Err(Failure::Raised(exception)) => Ok(Ended::Raised(exception)),
        Err(Failure::NoMemory) => Err(AllocError),
    }
}
