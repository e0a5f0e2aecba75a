//! The words of a command line.

ghost use Rattle.std.specs.Prelude.{◌≡◌};
ghost use Rattle.parsl_engine.specs.Words.{Meaning, names_file, command_named, is_plain, meaning};
ghost use Rattle.parsl_engine.specs.Orders.{IsMeantBy};

use flow_base::{Word, Words};

/// What the program can be told to do with a script.
#[derive(Clone, Copy, Debug, PartialEq, Eq)]
pub enum Command {
    /// Run it, and print the report of the run.
    Run,
    /// Print the head of its sequential evaluation: what a run's report says before its log.
    Seq,
    /// Print `ok` where it breaks no rule.
    Check,
    /// Print its canonical text.
    Format,
}

impl Command {
    fn named(word: &str) -> Option<Command>
        ensures { result ≡ command_named word.now }
    {
        match word {
            "run" => Some(Command::Run),
            "seq" => Some(Command::Seq),
            "check" => Some(Command::Check),
            "format" => Some(Command::Format),
            _ => None,
        }
    }
}

/// A command with the name of its script.
#[derive(Clone, Copy)]
pub struct Order<'a> {
    pub command: Command,
    pub script: &'a Word,
}

/// The order that the words give, or none where they mean nothing.
pub fn read_words(words: &Words) -> Option<Order<'_>>
    ensures { IsMeantBy words.now result }
{
    match words.as_slice() {
        [command, script] if names_a_file(script.as_str()) => {
            let command = Command::named(command.as_str())?;
            Some(Order { command, script })
        }
        _ => None,
    }
}

// A word that isn't empty, and is `-` or doesn't begin with it.
fn names_a_file(word: &str) -> bool
    ensures { result ≡ names_file word.now }
{
    match word.as_bytes() {
        [] => false,
        [b'-', rest @ ..] => rest.is_empty(),
        _ => true,
    }
}
