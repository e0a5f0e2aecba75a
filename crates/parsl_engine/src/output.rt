//! What a command prints for a script.

ghost use Rattle.std.specs.Prelude.{◌≡◌, false, true, map, IfOk};
ghost use Rattle.parsl_engine.specs.Scripts.{IsOfText};
ghost use Rattle.parsl_engine.specs.Output.{Produces, Gives, TellsEnd, is_raised};
ghost use Rattle.parsl_engine.specs.Tellings.{Ledgers};
ghost use Rattle.parsl_engine.specs.Words.{is_plain};
ghost use Rattle.parsl_engine.specs.declared.words.Command.TheVariants.{Run, Seq};

use crate::run::{PartEnd, RunEnd, run_alone};
use crate::script::{ScriptFault, read_script};
use crate::words::Command;
use compiled_script::CompiledScript;
use dependency_graph::Monitor;
use flow_base::Ending;
use kernel_core::{Opening, Refusal};
use log_lines::lines::texts_have_names;
use log_lines::{in_range, reports_are_read_back};
use run_report::{head, report};
use script_eval::{EvalFault, Losses, evaluate};
use script_print::print;
use script_tree::checked::Checked;
use std::alloc::{AllocError, Global};
use std::mem;
use std::sync::Arc;
use stored_units::Limit;

/// What a command prints, and whether an exception ended main.
#[derive(Drop)]
pub struct Output {
    pub text: Vec<u8>,
    pub raised: bool,
}

/// The output of a command that runs nothing, for the script that has this text.
pub fn plain_output(alloc: Global, command: Command, bytes: &[u8]) -> Result<Output, ScriptFault>
    requires { is_plain command ≡ true }
    ensures { (told : Ledgers) → Produces command bytes.now result told told }
{
    let script = read_script(alloc, bytes)?;
    match command {
        Command::Run => unreachable!(),
        Command::Seq => head_output(alloc, script),
        Command::Check => Ok(text_alone(Vec::from_slice(alloc, b"ok\n")?)),
        Command::Format => {
            let tree = script.script();
            Ok(text_alone(print(alloc, tree.apps(), tree.main())?))
        }
    }
}

/// The report of a run of the script that has this text. Each monitor is told of each settlement.
pub fn run_output<M: Monitor>(
    alloc: Global,
    bytes: &[u8],
    monitors: &mut Vec<M>,
) -> Result<Output, ScriptFault>
    ensures { Produces Run bytes.now result (map M.told monitors.old.items) (map M.told monitors.new.items) }
{
    let script = read_script(alloc, bytes)?;
    report_output(alloc, script, monitors)
}

fn text_alone(text: Vec<u8>) -> Output
    ensures { result ≡ record { text = text; raised = false } }
{
    Output {
        text,
        raised: false,
    }
}

// The report of a run of the script.
fn report_output<M: Monitor>(
    alloc: Global,
    script: Checked,
    monitors: &mut Vec<M>,
) -> Result<Output, ScriptFault>
    requires { IsOfText script }
    ensures { Gives Run script result (map M.told monitors.old.items) (map M.told monitors.new.items) }
{
    let Ok(script) = Arc::new(alloc, script) else {
        return Err(ScriptFault::NoMemory);
    };
    let watching = mem::replace(monitors, Vec::new(alloc));
    let run = run_alone(alloc, Opening { script }, watching);
    in_range(run.history.as_slice());
    texts_have_names();
    reports_are_read_back();
    let output = whole_report(alloc, &run);
    *monitors = run.monitors;
    output
}

// The report of a run that ended.
fn whole_report<M: Monitor>(alloc: Global, run: &RunEnd<M>) -> Result<Output, ScriptFault>
    ensures { TellsEnd run.now.end run.now.evaluation run.now.history result }
{
    match run.end {
        PartEnd::Ended => match &run.evaluation {
            Ok(evaluation) => Ok(Output {
                text: report(alloc, evaluation, run.history.as_slice())?,
                raised: has_raised(&evaluation.main),
            }),
            Err(AllocError) => Err(ScriptFault::NoMemory),
        },
        PartEnd::Refused(Refusal::NoMemory) => Err(ScriptFault::NoMemory),
        PartEnd::Refused(Refusal::TaskLimit) => Err(ScriptFault::Limited(Limit::Tasks)),
        PartEnd::Refused(Refusal::StoreLimit) => Err(ScriptFault::Limited(Limit::Stored)),
    }
}

// The head of the script's sequential evaluation.
fn head_output(alloc: Global, script: Checked) -> Result<Output, ScriptFault>
    requires { IsOfText script }
    ensures { (told : Ledgers) → Gives Seq script result told told }
{
    let script = compiled(alloc, script)?;
    match evaluate(alloc, &script, &Losses::new(alloc)) {
        Ok(evaluation) => Ok(Output {
            text: head(alloc, &evaluation)?,
            raised: has_raised(&evaluation.main),
        }),
        Err(EvalFault::TaskLimit) => Err(ScriptFault::Limited(Limit::Tasks)),
        Err(EvalFault::StoreLimit) => Err(ScriptFault::Limited(Limit::Stored)),
        Err(EvalFault::NoMemory) => Err(ScriptFault::NoMemory),
    }
}

// The script with its programs.
fn compiled(alloc: Global, script: Checked) -> Result<CompiledScript, AllocError>
    requires { IsOfText script }
    ensures { IfOk result (λ compiled. compiled ≡ script) }
{
    let script = Arc::new(alloc, script)?;
    CompiledScript::of(alloc, script)
}

fn has_raised(ending: &Ending) -> bool
    ensures { result ≡ is_raised ending.now }
{
    matches!(ending, Ending::Raised(_))
}
