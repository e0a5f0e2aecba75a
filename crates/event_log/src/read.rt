//! The entries of a log's text.

ghost use Rattle.std.specs.Prelude.{◌≡◌, ℕ, Err, IfOk};
ghost use Rattle.event_log.specs.Logs.{IsLogOf, IsFirstBad, LogsAreRead};
ghost use Rattle.event_log.specs.Reading as reading;
ghost use Rattle.event_log.specs.declared.words.Kind.TheVariants as kinds;
ghost use Rattle.event_log.specs.declared.read.LogFault.TheVariants.{BadEntry, NoMemory};

use crate::cursor::{Cursor, LineFault};
use crate::entry::{Entries, Entry};
use crate::words::{Kind, kind_of};
use flow_base::Path;
use std::alloc::{AllocError, AllocFailed, Global};
use thiserror::Error;

/// The most entries of a log.
pub const MAX_ENTRIES: usize = 4_000_000;

/// Why a text is read as no log.
#[derive(Debug, Drop, Error)]
pub enum LogFault {
    /// The first line that is no entry, counted from 1.
    #[error("line {line} is no entry")]
    BadEntry { line: u64 },
    #[error("out of memory")]
    NoMemory,
}

impl From<AllocError> for LogFault {
    ghost from_gives = { λ _ e. e ≡ NoMemory };

    fn from(_: AllocError) -> LogFault {
        LogFault::NoMemory
    }
}

impl<T: Drop> From<AllocFailed<T>> for LogFault {
    ghost from_gives = { λ _ e. e ≡ NoMemory };

    fn from(_: AllocFailed<T>) -> LogFault {
        LogFault::NoMemory
    }
}

impl<'a> Cursor<'a> {
    fn attempt(&mut self, alloc: Global) -> Result<(Path, u32), LineFault>
        ensures { reading.Gives (λ a. a) result self.new (reading.attempt self.old) }
    {
        let path = self.path(alloc)?;
        self.skip(b" try")?;
        Ok((path, self.number()?))
    }

    fn managed(&mut self, alloc: Global) -> Result<(Path, u32, u32), LineFault>
        ensures { reading.Gives (λ a. ((a.0, a.1), a.2)) result self.new (reading.managed self.old) }
    {
        let (path, attempt) = self.attempt(alloc)?;
        self.skip(b" manager")?;
        Ok((path, attempt, self.number()?))
    }

    fn register(&mut self) -> Result<Entry, LineFault>
        ensures { reading.Gives (λ e. e) result self.new (reading.fields kinds.Register self.old) }
    {
        let manager = self.number()?;
        self.skip(b" block")?;
        let block = self.number()?;
        self.skip(b" slots")?;
        let slots = self.number()?;
        Ok(Entry::Register {
            manager,
            block,
            slots,
        })
    }

    fn fields(&mut self, alloc: Global, kind: Kind) -> Result<Entry, LineFault>
        ensures { reading.Gives (λ e. e) result self.new (reading.fields kind self.old) }
    {
        match kind {
            Kind::Submit => {
                let path = self.path(alloc)?;
                let app = self.name(alloc)?;
                Ok(Entry::Submit { path, app })
            }
            Kind::Join => Ok(Entry::JoinRun {
                path: self.path(alloc)?,
            }),
            Kind::Memo => Ok(Entry::MemoHit {
                path: self.path(alloc)?,
            }),
            Kind::Launch => {
                let (path, attempt) = self.attempt(alloc)?;
                Ok(Entry::Launch { path, attempt })
            }
            Kind::Dispatch => {
                let (path, attempt, manager) = self.managed(alloc)?;
                Ok(Entry::Dispatch {
                    path,
                    attempt,
                    manager,
                })
            }
            Kind::Start => {
                let (path, attempt, manager) = self.managed(alloc)?;
                Ok(Entry::Start {
                    path,
                    attempt,
                    manager,
                })
            }
            Kind::Ended => {
                let (path, attempt, manager) = self.managed(alloc)?;
                let ended = self.end_word(alloc)?;
                Ok(Entry::Ended {
                    path,
                    attempt,
                    manager,
                    ended,
                })
            }
            Kind::Held => {
                let (path, attempt, manager) = self.managed(alloc)?;
                Ok(Entry::Held {
                    path,
                    attempt,
                    manager,
                })
            }
            Kind::LostTry => {
                let (path, attempt, manager) = self.managed(alloc)?;
                Ok(Entry::LostTry {
                    path,
                    attempt,
                    manager,
                })
            }
            Kind::Stored => Ok(Entry::Stored {
                path: self.path(alloc)?,
            }),
            Kind::Settled => {
                let path = self.path(alloc)?;
                let status = self.status()?;
                Ok(Entry::Settled { path, status })
            }
            Kind::Block => {
                let block = self.number()?;
                let state = self.block_state()?;
                Ok(Entry::Block { block, state })
            }
            Kind::Register => self.register(),
            Kind::Refused => {
                let block = self.number()?;
                let version = self.text(alloc)?;
                Ok(Entry::Refused { block, version })
            }
            Kind::Tick => Ok(Entry::Tick { at: self.long()? }),
            Kind::Beat => Ok(Entry::Beat {
                manager: self.number()?,
            }),
            Kind::Silent => Ok(Entry::Silent {
                manager: self.number()?,
            }),
            Kind::Lost => Ok(Entry::Lost {
                manager: self.number()?,
            }),
            Kind::Drain => Ok(Entry::Drain {
                manager: self.number()?,
            }),
            Kind::Drained => Ok(Entry::Drained {
                manager: self.number()?,
            }),
            Kind::Hold => Ok(Entry::Hold {
                manager: self.number()?,
            }),
            Kind::Scale => Ok(Entry::Scale {
                decision: self.decision()?,
            }),
            Kind::Checkpoint => Ok(Entry::Checkpoint {
                count: self.long()?,
            }),
            Kind::End => Ok(Entry::End),
        }
    }

    fn entry(&mut self, alloc: Global) -> Result<Entry, LineFault>
        ensures { reading.Gives (λ e. e) result self.new (reading.entry self.old) }
    {
        let kind = kind_of(self.word()).ok_or(LineFault::NoEntry)?;
        let entry = self.fields(alloc, kind)?;
        self.skip(b"\n")?;
        Ok(entry)
    }
}

/// The entries of these bytes.
pub fn read_log(alloc: Global, bytes: &[u8]) -> Result<Entries, LogFault>
    ensures entries { IfOk result (λ entries. IsLogOf bytes.now entries) }
    ensures bad { (line : ℕ) → result ≡ Err (BadEntry line) → IsFirstBad bytes.now line }
{
    let mut entries = Entries::new(alloc);
    let mut cursor = Cursor::new(bytes);
    while !cursor.is_at_end() {
        let line = entries.len() as u64 + 1;
        if entries.len() == MAX_ENTRIES {
            return Err(LogFault::BadEntry { line });
        }
        match cursor.entry(alloc) {
            Ok(entry) => entries.push(entry)?,
            Err(LineFault::NoEntry) => return Err(LogFault::BadEntry { line }),
            Err(LineFault::NoMemory) => return Err(LogFault::NoMemory),
        }
    }
    Ok(entries)
}

/// Each text is the log of one list of entries at most, and has a first bad line or is a log, not both.
pub fn logs_are_read()
    ensures { LogsAreRead }
{}
