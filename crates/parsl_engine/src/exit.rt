//! How a command on a script ends: its status and its line on err.

ghost use Rattle.std.specs.Prelude.{◌≡◌, ◌++◌, decimal};
ghost use Rattle.flow_base.specs.Causes.{HasCause};
ghost use Rattle.flow_base.specs.Sink.{AddsUnlessFailed};
ghost use Rattle.parsl_engine.specs.Course.{status_of, line_of, read_line, refusal_line, limit_line, fault_line};

use crate::script::{ScriptFault, ScriptRefusal};
use flow_base::{Failed, ShelfFault, Sink, Word, write_whole};
use itoa::Buffer;
use stored_units::Limit;

/// How a command on a script ends.
#[derive(Clone, Copy, Debug, PartialEq, Eq)]
pub enum Exit {
    /// The whole output was written, and main ended without an exception.
    Done,
    /// The whole output was written, and an exception ended main.
    Raised,
    /// The script's bytes are no script that the command takes.
    Refused(ScriptRefusal),
    /// The script wasn't read.
    Unread,
    /// The output wasn't written whole.
    Unwritten,
    /// The script passes this limit of a run.
    Limited(Limit),
    /// An allocation was refused.
    NoMemory,
}

impl From<ScriptFault> for Exit {
    ghost use Rattle.std.specs.Prelude.{◌≡◌};
    ghost use Rattle.parsl_engine.specs.Exits.{exit_of};

    ghost from_gives = { λ fault exit. exit ≡ exit_of fault };

    fn from(fault: ScriptFault) -> Exit {
        match fault {
            ScriptFault::Refused(refusal) => Exit::Refused(refusal),
            ScriptFault::Limited(limit) => Exit::Limited(limit),
            ScriptFault::NoMemory => Exit::NoMemory,
        }
    }
}

impl From<ShelfFault> for Exit {
    ghost use Rattle.std.specs.Prelude.{◌≡◌};
    ghost use Rattle.parsl_engine.specs.Exits.{exit_unread};

    ghost from_gives = { λ fault exit. exit ≡ exit_unread fault };

    fn from(fault: ShelfFault) -> Exit {
        match fault {
            ShelfFault::Failed => Exit::Unread,
            ShelfFault::NoMemory => Exit::NoMemory,
        }
    }
}

impl Exit {
    /// The exit status.
    pub fn status(self) -> u8
        ensures { result ≡ status_of self }
    {
        match self {
            Exit::Done => 0,
            Exit::Raised => 1,
            Exit::Refused(_) => 3,
            Exit::Unread => 6,
            Exit::Unwritten => 7,
            Exit::Limited(_) => 10,
            Exit::NoMemory => 12,
        }
    }

    /// Writes the line of a call that names this script, or the first bytes of it where err fails.
    fn tell<E: Sink>(self, script: &Word, err: &mut E) -> Result<(), Failed>
        ensures { AddsUnlessFailed E.tells (E.state err.old) (E.state err.new) (line_of script.now self) }
    {
        match self {
            Exit::Done | Exit::Raised => Ok(()),
            Exit::Refused(refusal) => tell_refusal(refusal, err),
            Exit::Unread => tell_unread(script.as_str(), err),
            Exit::Unwritten => write_whole(err, b"parsl: write\n"),
            Exit::Limited(limit) => tell_limit(limit, err),
            Exit::NoMemory => write_whole(err, b"parsl: memory\n"),
        }
    }

    /// Writes the line, and gives the status. A failing write changes nothing.
    pub fn finish<E: Sink>(self, script: &Word, err: &mut E) -> u8
        ensures status { result ≡ status_of self }
        ensures line { AddsUnlessFailed E.tells (E.state err.old) (E.state err.new) (line_of script.now self) }
    {
        let _ = self.tell(script, err);
        self.status()
    }
}

fn tell_refusal<E: Sink>(refusal: ScriptRefusal, err: &mut E) -> Result<(), Failed>
    ensures { AddsUnlessFailed E.tells (E.state err.old) (E.state err.new) (refusal_line refusal) }
{
    match refusal {
        ScriptRefusal::Parse { kind, place } => {
            tell_fault(b"parsl: script: parse ", kind.number(), place, err)
        }
        ScriptRefusal::Check { kind, place } => {
            tell_fault(b"parsl: script: check ", kind.number(), place, err)
        }
    }
}

fn tell_limit<E: Sink>(limit: Limit, err: &mut E) -> Result<(), Failed>
    ensures { AddsUnlessFailed E.tells (E.state err.old) (E.state err.new) (limit_line limit) }
{
    match limit {
        Limit::Tasks => write_whole(err, b"parsl: task limit 100000\n"),
        Limit::Stored => write_whole(err, b"parsl: store limit 16777216\n"),
    }
}

// The number and the place of a fault, behind what names it.
fn tell_fault<E: Sink>(front: &[u8], number: u8, place: u32, err: &mut E) -> Result<(), Failed>
    ensures { AddsUnlessFailed E.tells (E.state err.old) (E.state err.new) (fault_line front.now number place) }
{
    write_numbered(err, front, u32::from(number))?;
    write_numbered(err, b" at ", place)?;
    write_whole(err, b"\n")
}

// A text with a number behind it.
fn write_numbered<E: Sink>(err: &mut E, front: &[u8], number: u32) -> Result<(), Failed>
    ensures line { AddsUnlessFailed E.tells (E.state err.old) (E.state err.new) (front.now ++ decimal number) }
    ensures cause { HasCause (E.state err.old).faults (E.state err.new).faults result }
{
    let mut buffer = Buffer::new();
    let digits = buffer.format(number);
    write_whole(err, front)?;
    write_whole(err, digits.as_bytes())
}

fn tell_unread<E: Sink>(name: &str, err: &mut E) -> Result<(), Failed>
    ensures { AddsUnlessFailed E.tells (E.state err.old) (E.state err.new) (read_line name.now) }
{
    write_whole(err, b"parsl: read: ")?;
    write_whole(err, name.as_bytes())?;
    write_whole(err, b"\n")
}
