//! A sink in memory.

ghost use Rattle.std.specs.Prelude.{◌≡◌, ◌++◌, ◌-◌, ◌<◌, ◌≤◌, [], min, length, true, IfOk, IsErr};
ghost use Rattle.flow_base.specs.Causes.{HasCause};
ghost use Rattle.flow_base.specs.Sink.{accepted};

use crate::sink::{Failed, Sink};
use std::alloc::{AllocError, Global};
use std::marker::Model;

/// A sink that takes as many bytes as it has room for, and fails once it holds them.
#[derive(Drop)]
pub struct MemSink {
    taken: Vec<u8>,
    room: usize,
    faults: u64,
}

impl Model for MemSink {
    ghost use Rattle.std.specs.Prelude.{◌≤◌, vec_len, vec_capacity};
    ghost use Rattle.flow_base.specs.MemSink.{MemSinkState};

    ghost Value = { MemSinkState };

    ghost view = { λ s. record { taken = s.taken.items; room = s.room; faults = s.faults } };

    ghost invariant = { λ s. record { within : vec_len s.taken ≤ s.room; reserved : s.room ≤ vec_capacity s.taken } };
}

impl MemSink {
    /// A sink with room for so many bytes. It takes their memory at once, so that no write takes any.
    pub fn with_room(alloc: Global, room: u64) -> Result<MemSink, AllocError>
        ensures { IfOk result (λ sink. sink ≡ record { taken = []; room = room; faults = 0 }) }
    {
        let room = room as usize;
        Ok(MemSink {
            taken: Vec::with_capacity(alloc, room)?,
            room,
            faults: 0,
        })
    }

    /// What it took.
    pub fn bytes(&self) -> &[u8]
        ensures { result.now ≡ self.now.taken }
    {
        &self.taken
    }
}

impl Sink for MemSink {
    ghost tells = { true };

    ghost state = { λ s. record { taken = s.taken; faults = s.faults } };

    /// Takes what it has room for.
    fn write(&mut self, bytes: &[u8]) -> Result<usize, Failed>
        ensures taken { self.new.taken ≡ self.old.taken ++ accepted result bytes.now }
        ensures most { IfOk result (λ n. n ≤ length bytes.now) }
        ensures least { IfOk result (λ n. 0 < length bytes.now → 0 < n) }
        ensures empty { length bytes.now ≡ 0 → result ≡ Ok 0 }
        ensures cause { HasCause self.old.faults self.new.faults result }
        ensures fits { length self.old.taken < self.old.room → result ≡ Ok (min (self.old.room - length self.old.taken) (length bytes.now)) }
        ensures full { self.old.room ≤ length self.old.taken → 0 < length bytes.now → IsErr result }
        ensures room { self.new.room ≡ self.old.room }
    {
        if bytes.is_empty() {
            return Ok(0);
        }
        let left = self.room - self.taken.len();
        if left == 0 {
            self.faults = self.faults.saturating_add(1);
            return Err(Failed);
        }
        let count = left.min(bytes.len());
        let Ok(()) = self.taken.extend_from_slice(&bytes[..count]) else {
            unreachable!()
        };
        Ok(count)
    }
}
