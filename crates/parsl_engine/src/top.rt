//! The top calls.

ghost use Rattle.std.specs.Prelude.{◌≡◌, None, IfSome, map, true};
ghost use Rattle.parsl_engine.specs.Course.{Wrote, Course, Carries, NoReading};
ghost use Rattle.parsl_engine.specs.Tellings.{Ledgers};
ghost use Rattle.parsl_engine.specs.Words.{meaning, is_plain};
ghost use Rattle.parsl_engine.specs.declared.words.Command.TheVariants.{Run};

use crate::exit::Exit;
use crate::output::{Output, plain_output, run_output};
use crate::script::ScriptFault;
use crate::words::{Command, Order, read_words};
use dependency_graph::Monitor;
use flow_base::{Shelf, Sink, Word, Words, write_whole};
use std::alloc::Global;

/// The longest script, and one byte more.
const READ_LIMIT: u64 = 1_048_577;

/// The exit status where the words mean nothing.
const WORDS_REFUSED: u8 = 2;

/// Prints an output, where there is one.
fn print<O: Sink>(output: Result<Output, ScriptFault>, out: &mut O) -> Exit
    ensures { Wrote output result O.tells (O.state out.old) (O.state out.new) }
{
    match output {
        Ok(output) => match write_whole(out, &output.text) {
            Ok(()) if output.raised => Exit::Raised,
            Ok(()) => Exit::Done,
            Err(_) => Exit::Unwritten,
        },
        Err(fault) => Exit::from(fault),
    }
}

/// Reads the script of this name, runs it, and prints the report.
fn run<S: Shelf, O: Sink, M: Monitor>(
    alloc: Global,
    script: &Word,
    shelf: &mut S,
    out: &mut O,
    monitors: &mut Vec<M>,
) -> Exit
    ensures { Course Run script.now result S.tells O.tells (S.state shelf.old) (S.state shelf.new) (O.state out.old) (O.state out.new) (map M.told monitors.old.items) (map M.told monitors.new.items) }
{
    match shelf.read(script.as_str(), READ_LIMIT) {
        Ok(bytes) => print(run_output(alloc, &bytes, monitors), out),
        Err(fault) => Exit::from(fault),
    }
}

/// Reads the script of an order, and prints the command's output for it.
fn tell<S: Shelf, O: Sink>(alloc: Global, order: Order, shelf: &mut S, out: &mut O) -> Exit
    requires { is_plain order.command ≡ true }
    ensures { (told : Ledgers) → Course order.entry.command order.entry.script.now result S.tells O.tells (S.state shelf.old) (S.state shelf.new) (O.state out.old) (O.state out.new) told told }
{
    match shelf.read(order.script.as_str(), READ_LIMIT) {
        Ok(bytes) => print(plain_output(alloc, order.command, &bytes), out),
        Err(fault) => Exit::from(fault),
    }
}

/// Carries out an order to run a script, and gives the exit status: 0 done, 1 done where an exception
/// ended main, 3 a script that is refused, 6 a script that wasn't read, 7 a report that wasn't written,
/// 10 a script that passes a limit of a run, 12 want of memory. Each but 0 and 1 has a line on `err`.
/// Each monitor is told of each settlement of the run; whatever the status, all are back in `monitors`.
pub fn run_top<S: Shelf, O: Sink, E: Sink, M: Monitor>(
    alloc: Global,
    order: Order,
    shelf: &mut S,
    out: &mut O,
    err: &mut E,
    monitors: &mut Vec<M>,
) -> u8
    requires { order.command ≡ Run }
    ensures { Carries (order.entry.command, order.entry.script.now) result S.tells O.tells E.tells (S.state shelf.old) (S.state shelf.new) (O.state out.old) (O.state out.new) (E.state err.old) (E.state err.new) (map M.told monitors.old.items) (map M.told monitors.new.items) }
{
    run(alloc, order.script, shelf, out, monitors).finish(order.script, err)
}

/// Carries out an order of a command that waits for nobody, and returns the exit status, as `run_top`
/// has them. Status 1 comes where an exception ended main in the evaluation; `check` and `format` have
/// neither 1 nor 10.
pub fn plain_top<S: Shelf, O: Sink, E: Sink>(
    alloc: Global,
    order: Order,
    shelf: &mut S,
    out: &mut O,
    err: &mut E,
) -> u8
    requires { is_plain order.command ≡ true }
    ensures { (told : Ledgers) → Carries (order.entry.command, order.entry.script.now) result S.tells O.tells E.tells (S.state shelf.old) (S.state shelf.new) (O.state out.old) (O.state out.new) (E.state err.old) (E.state err.new) told told }
{
    tell(alloc, order, shelf, out).finish(order.script, err)
}

/// Carries out what the words of a command line mean, without the program's name, and gives the exit
/// status: 2 words without a meaning, or else that of the order. The monitors are told of the settlements
/// of a run; whatever the status, all are back in `monitors`, in their order.
pub fn parsl_top<S: Shelf, O: Sink, E: Sink, M: Monitor>(
    alloc: Global,
    words: &Words,
    shelf: &mut S,
    out: &mut O,
    err: &mut E,
    monitors: &mut Vec<M>,
) -> u8
    ensures words { result ≡ 2 → meaning words.now ≡ None }
    ensures no_reading { meaning words.now ≡ None → NoReading result E.tells (S.state shelf.old) (S.state shelf.new) (O.state out.old) (O.state out.new) (E.state err.old) (E.state err.new) (map M.told monitors.old.items) (map M.told monitors.new.items) }
    ensures carries { IfSome (meaning words.now) (λ m. Carries m result S.tells O.tells E.tells (S.state shelf.old) (S.state shelf.new) (O.state out.old) (O.state out.new) (E.state err.old) (E.state err.new) (map M.told monitors.old.items) (map M.told monitors.new.items)) }
{
    let Some(order) = read_words(words) else {
        let _ = write_whole(err, b"parsl: words\n");
        return WORDS_REFUSED;
    };
    match order.command {
        Command::Run => run_top(alloc, order, shelf, out, err, monitors),
        Command::Seq | Command::Check | Command::Format => plain_top(alloc, order, shelf, out, err),
    }
}
