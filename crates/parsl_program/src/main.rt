//! The program: `parsl_program run SCRIPT`, `check SCRIPT` or `format SCRIPT`.
#![tactic(auto)]

use flow_base::{HostShelf, HostSink, Word, Words, write_whole};
use parsl_engine::exit::Exit;
use parsl_engine::{Ledger, parsl_top};
use std::env;
use std::io::{self, ErrorKind};
use std::process::ExitCode;

/// The words of the command line, without the program's name.
fn command_words(rt: &HostRuntime) -> io::Result<Words> {
    let alloc = rt.alloc();
    let mut words = Words::new(alloc);
    for word in env::args(rt)?.skip(1) {
        words.push(Word::of(alloc, word.as_str())?)?;
    }
    Ok(words)
}

fn main(rt: HostRuntime) -> ExitCode {
    let alloc = rt.alloc();
    let mut out = HostSink::new(rt.stdout());
    let mut err = HostSink::new(rt.stderr());
    let words = match command_words(&rt) {
        Ok(words) => words,
        Err(error) if error.kind() == ErrorKind::OutOfMemory => {
            let _ = write_whole(&mut err, b"parsl: memory\n");
            return ExitCode::from(Exit::NoMemory.status());
        }
        // A word that isn't UTF-8: no words mean nothing either.
        Err(_) => Words::new(alloc),
    };
    let mut shelf = HostShelf::new(alloc, rt);
    let mut monitors: Vec<Ledger> = Vec::new(alloc);
    ExitCode::from(parsl_top(alloc, &words, &mut shelf, &mut out, &mut err, &mut monitors))
}
