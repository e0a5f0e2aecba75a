//! A sink over a writer of std.

ghost use Rattle.std.specs.Prelude.{◌≡◌, ◌<◌, ◌≤◌, ◌++◌, [], false, IsTrue, length, IfOk};
ghost use Rattle.std.specs.Io.KnownBytes.{WriteAppends};
ghost use Rattle.flow_base.specs.Causes.{HasCause};
ghost use Rattle.flow_base.specs.HostSink.{writer_of, answer_of};
ghost use Rattle.flow_base.specs.Sink.{accepted};

use crate::sink::{Failed, Sink};
use std::io::{self, Write};

/// A writer. It tells nothing but its faults.
#[derive(Drop)]
pub struct HostSink<W: Write + Drop> {
    writer: W,
    faults: u64,
}

impl<W: Write + Drop> HostSink<W> {
    /// A sink over this writer.
    pub fn new(writer: W) -> HostSink<W>
        ensures writer { writer_of result ≡ writer }
        ensures faults { result.faults ≡ 0 }
    {
        HostSink { writer, faults: 0 }
    }
}

// The answer to the count that a writer gave.
fn answer_of(written: io::Result<usize>) -> Result<usize, Failed>
    ensures { result ≡ answer_of written }
{
    match written {
        Ok(count) if count > 0 => Ok(count),
        _ => Err(Failed),
    }
}

// One write. A writer that tells its bytes got exactly those that were taken.
fn write_some<W: Write>(writer: &mut W, bytes: &[u8]) -> Result<usize, Failed>
    ensures most { IfOk result (λ n. n ≤ length bytes.now) }
    ensures least { IfOk result (λ n. 0 < n) }
    ensures bytes { WriteAppends (W.contents writer.old) (W.contents writer.new) result bytes.now }
{
    answer_of(writer.write(bytes))
}

impl<W: Write + Drop> Sink for HostSink<W> {
    ghost tells = { false };

    ghost state = { λ s. record { taken = []; faults = s.faults } };

    /// Takes what its writer takes in one write. Where the writer tells its bytes, it got exactly those.
    fn write(&mut self, bytes: &[u8]) -> Result<usize, Failed>
        ensures most { IfOk result (λ n. n ≤ length bytes.now) }
        ensures least { IfOk result (λ n. 0 < length bytes.now → 0 < n) }
        ensures empty { length bytes.now ≡ 0 → result ≡ Ok 0 }
        ensures cause { HasCause self.old.faults self.new.faults result }
        ensures bytes { WriteAppends (W.contents (writer_of self.old)) (W.contents (writer_of self.new)) result bytes.now }
    {
        if bytes.is_empty() {
            return Ok(0);
        }
        let answer = write_some(&mut self.writer, bytes);
        if answer.is_err() {
            self.faults = self.faults.saturating_add(1);
        }
        answer
    }
}
