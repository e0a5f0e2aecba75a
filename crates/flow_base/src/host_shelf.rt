//! A shelf over the files of the system.

ghost use Rattle.std.specs.Prelude.{◌≡◌, ◌≤◌, ◌↔◌, [], false, None, Ok, length, take, Err, ◌≢◌, IfOk, IfErr, IfSome};
ghost use Rattle.std.specs.IoError.{error_kind};
ghost use Rattle.flow_base.specs.Shelf.{Counted, CountsFault};

use crate::shelf::{Shelf, ShelfFault};
use std::alloc::Global;
use std::fs::File;
use std::io::{self, ErrorKind, Read};
use std::rt::Files;

/// Files by their paths. It tells nothing but its faults.
#[derive(Drop)]
pub struct HostShelf<R: Files + Drop> {
    rt: R,
    alloc: Global,
    faults: u64,
}

// The first `limit` bytes of a reader, or all where there are fewer.
fn read_first<R: Read + Drop>(alloc: Global, reader: R, limit: u64) -> io::Result<Vec<u8>>
    ensures first { IfOk result (λ bytes. IfSome (R.remaining reader) (λ left. bytes.items ≡ take limit left)) }
    ensures short { IfOk result (λ bytes. length bytes.items ≤ limit) }
{
    let mut bytes = Vec::new(alloc);
    reader.take(limit).read_to_end(&mut bytes)?;
    // A reader that tells nothing might give more by its contract.
    bytes.truncate(limit as usize);
    Ok(bytes)
}

fn read_file<R: Files>(rt: &R, alloc: Global, name: &str, limit: u64) -> io::Result<Vec<u8>>
    ensures { IfOk result (λ bytes. length bytes.items ≤ limit) }
{
    read_first(alloc, File::open(rt, name)?, limit)
}

impl<R: Files + Drop> HostShelf<R> {
    /// A shelf over the files that `rt` reaches.
    pub fn new(alloc: Global, rt: R) -> HostShelf<R>
        ensures { result.faults ≡ 0 }
    {
        HostShelf {
            rt,
            alloc,
            faults: 0,
        }
    }

    // The fault of an error. It counts each but want of memory.
    fn fault(&mut self, error: &io::Error) -> ShelfFault
        ensures count { CountsFault self.old.faults self.new.faults result }
        ensures memory { result ≡ ShelfFault.NoMemory ↔ error_kind error.now ≡ ErrorKind.OutOfMemory }
    {
        if error.kind() == ErrorKind::OutOfMemory {
            return ShelfFault::NoMemory;
        }
        self.faults = self.faults.saturating_add(1);
        ShelfFault::Failed
    }

    // The answer to what the files gave: the same bytes, or the fault of the error.
    fn answer(&mut self, read: io::Result<Vec<u8>>) -> Result<Vec<u8>, ShelfFault>
        ensures bytes { IfOk read (λ bytes. result ≡ Ok bytes) }
        ensures memory { IfErr read (λ error. result ≡ Err ShelfFault.NoMemory ↔ error_kind error ≡ ErrorKind.OutOfMemory) }
        ensures failed { IfErr read (λ error. result ≡ Err ShelfFault.Failed ↔ error_kind error ≢ ErrorKind.OutOfMemory) }
        ensures count { Counted self.old.faults self.new.faults result }
    {
        match read {
            Ok(bytes) => Ok(bytes),
            Err(error) => Err(self.fault(&error)),
        }
    }
}

impl<R: Files + Drop> Shelf for HostShelf<R> {
    ghost tells = { false };

    ghost state = { λ s. record { stands = λ name. None; calls = []; faults = s.faults } };

    fn read(&mut self, name: &str, limit: u64) -> Result<Vec<u8>, ShelfFault> {
        let read = read_file(&self.rt, self.alloc, name, limit);
        self.answer(read)
    }
}
