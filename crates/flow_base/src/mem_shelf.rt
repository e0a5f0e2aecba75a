//! A shelf in memory.

ghost use Rattle.std.specs.Prelude.{◌≡◌, ◌++◌, [], ◌∷◌, length, true, IfOk, OnOk, OnErr, IsErrOf, MatchOption, None, Some, option_map};
ghost use Rattle.flow_base.specs.MemShelf.{MemShelfState, stands_of, next_call, is_failing, readable, fault_more, left_by};
ghost use Rattle.flow_base.specs.Shelf.{Counted, CountsFault, Same, Stand, noted, put};

use crate::mem_file::{MemFile, NotedCall, file_named, put_file};
use crate::shelf::{CallKind, Shelf, ShelfFault};
use std::alloc::{AllocError, Global};
use std::marker::Model;

/// A shelf in memory, which fails the calls whose numbers it was given. Its calls count from 1, also
/// those that had no memory.
#[derive(Drop)]
pub struct MemShelf {
    alloc: Global,
    files: Vec<MemFile>,
    calls: Vec<NotedCall>,
    failing: Vec<u64>,
    made: u64,
    faults: u64,
}

impl Model for MemShelf {
    ghost use Rattle.flow_base.specs.MemShelf.{MemShelfState};

    ghost Value = { MemShelfState };

    ghost view = { λ s. record { files = s.files.items; calls = s.calls.items; failing = s.failing.items; made = s.made; faults = s.faults } };
}

impl MemShelf {
    /// A shelf with no file.
    pub fn new(alloc: Global) -> MemShelf
        ensures { result ≡ record { files = []; calls = []; failing = []; made = 0; faults = 0 } }
    {
        MemShelf {
            alloc,
            files: Vec::new(alloc),
            calls: Vec::new(alloc),
            failing: Vec::new(alloc),
            made: 0,
            faults: 0,
        }
    }

    /// Gives a name these bytes, all of them safe, in place of what it had. This is no call of the trait.
    pub fn put(&mut self, name: &str, bytes: &[u8]) -> Result<(), AllocError>
        ensures ok { OnOk result (Same (put (stands_of self.old.files) name.now (record { held = bytes.now; safe = length bytes.now })) (stands_of self.new.files)) }
        ensures rest { self.new ≡ record self.old { files = self.new.files } }
        ensures err { OnErr result (self.new ≡ self.old) }
    {
        put_file(self.alloc, &mut self.files, name, bytes)
    }

    /// Adds a number to the list of calls that are to fail.
    pub fn fail(&mut self, call: u64) -> Result<(), AllocError>
        ensures ok { OnOk result (self.new ≡ record self.old { failing = self.old.failing ++ call ∷ [] }) }
        ensures err { OnErr result (self.new ≡ self.old) }
    {
        self.failing.push(call)?;
        Ok(())
    }

    /// The bytes that a name holds.
    pub fn held(&self, name: &str) -> Option<&[u8]>
        ensures { MatchOption result (stands_of self.now.files name.now ≡ None) (λ bytes. option_map Stand.held (stands_of self.now.files name.now) ≡ Some bytes.now) }
    {
        match file_named(&self.files, name) {
            Some(file) => Some(file.held()),
            None => None,
        }
    }

    /// How many bytes of a name are safe.
    pub fn safe(&self, name: &str) -> Option<u64>
        ensures { result ≡ option_map Stand.safe (stands_of self.now.files name.now) }
    {
        match file_named(&self.files, name) {
            Some(file) => Some(file.safe()),
            None => None,
        }
    }

    // Counts a call, and tells whether it is to fail.
    fn begin(&mut self) -> bool
        ensures fails { result ≡ is_failing self.old.failing (next_call self.old.made) }
        ensures counted { self.new ≡ record self.old { made = next_call self.old.made } }
    {
        self.made = self.made.saturating_add(1);
        self.failing.contains(&self.made)
    }

    // Adds a call to the list of calls.
    fn note(&mut self, kind: CallKind, name: &str, failed: bool) -> Result<(), AllocError>
        ensures ok { OnOk result (self.new ≡ record self.old { calls = self.old.calls ++ record { kind = kind; name = name.now; failed = failed } ∷ [] }) }
        ensures err { OnErr result (self.new ≡ self.old) }
    {
        self.calls
            .push(NotedCall::of(self.alloc, kind, name, failed)?)?;
        Ok(())
    }

    // Notes a failed call, and counts its fault.
    fn refuse(&mut self, kind: CallKind, name: &str) -> ShelfFault
        ensures left { self.new ≡ record self.old { calls = self.old.calls ++ noted kind name.now result; faults = fault_more self.old.faults result } }
        ensures counted { CountsFault self.old.faults self.new.faults result }
    {
        if self.note(kind, name, true).is_err() {
            return ShelfFault::NoMemory;
        }
        self.faults = self.faults.saturating_add(1);
        ShelfFault::Failed
    }
}

impl Shelf for MemShelf {
    ghost tells = { true };

    ghost state = { λ s. record { stands = stands_of s.files; calls = s.calls; faults = s.faults } };

    /// Fails exactly where the number of the call is in the list or the name isn't there.
    fn read(&mut self, name: &str, limit: u64) -> Result<Vec<u8>, ShelfFault>
        ensures given { IfOk result (λ bytes. readable self.old name.now limit ≡ Some bytes.items) }
        ensures failed { IsErrOf result ShelfFault.Failed → readable self.old name.now limit ≡ None }
        ensures left { self.new ≡ left_by self.old CallKind.Read name.now result }
        ensures counted { Counted self.old.faults self.new.faults result }
    {
        let fails = self.begin();
        match file_named(&self.files, name) {
            Some(file) if !fails => {
                let Ok(bytes) = file.first(self.alloc, limit) else {
                    return Err(ShelfFault::NoMemory);
                };
                if self.note(CallKind::Read, name, false).is_err() {
                    return Err(ShelfFault::NoMemory);
                }
                Ok(bytes)
            }
            _ => Err(self.refuse(CallKind::Read, name)),
        }
    }
}
