//! A sink of bytes.

ghost use Rattle.std.specs.Prelude.{◌≡◌, ◌<◌, ◌≤◌, ◌++◌, Bool, IsTrue, length, IfOk, OnOk};
ghost use Rattle.flow_base.specs.Causes.{HasCause};
ghost use Rattle.flow_base.specs.Sink.{SinkState, accepted, Adds, AddsPart, AddsUnlessFailed};

/// A sink took nothing. Its count of faults rose.
#[derive(Clone, Copy, Debug, PartialEq, Eq)]
pub struct Failed;

/// What bytes are written to.
pub trait Sink {
    /// Whether it tells what it has taken.
    ghost tells: { Bool };

    /// The bytes taken so far, and how often it failed.
    ghost state: { Self → SinkState };

    /// Takes at least one byte of a piece that isn't empty, and gives how many.
    fn write(&mut self, bytes: &[u8]) -> Result<usize, Failed>
        ensures taken { IsTrue tells → (state self.new).taken ≡ (state self.old).taken ++ accepted result bytes.now }
        ensures most { IfOk result (λ n. n ≤ length bytes.now) }
        ensures least { IfOk result (λ n. 0 < length bytes.now → 0 < n) }
        ensures empty { length bytes.now ≡ 0 → result ≡ Ok 0 }
        ensures cause { HasCause (state self.old).faults (state self.new).faults result };
}

/// Writes all bytes, or the first of them where the sink fails.
pub fn write_whole<S: Sink>(sink: &mut S, bytes: &[u8]) -> Result<(), Failed>
    ensures whole { OnOk result (Adds S.tells (S.state sink.old) (S.state sink.new) bytes.now) }
    ensures unless_failed { AddsUnlessFailed S.tells (S.state sink.old) (S.state sink.new) bytes.now }
    ensures part { AddsPart S.tells (S.state sink.old) (S.state sink.new) bytes.now }
    ensures cause { HasCause (S.state sink.old).faults (S.state sink.new).faults result }
{
    let mut rest = bytes;
    while !rest.is_empty() {
        let count = sink.write(rest)?;
        rest = &rest[count..];
    }
    Ok(())
}
