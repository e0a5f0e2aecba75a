//! The base of every layer: values and outcomes, and the outside that a run reads from and writes to.
#![tactic(auto)]

mod copies;
mod decision;
mod host_shelf;
mod host_sink;
mod mem_file;
mod mem_shelf;
mod mem_sink;
pub mod outcome;
mod path;
mod same;
pub mod shelf;
mod sink;
#[cfg(test)]
mod tests;
mod text;
pub mod value;
mod word;

pub use copies::copy_files;
pub use decision::Decision;
pub use host_shelf::HostShelf;
pub use host_sink::HostSink;
pub use mem_shelf::MemShelf;
pub use mem_sink::MemSink;
pub use outcome::{
    Ended, Ending, Evaluation, Exception, FileOut, Files, Outcome, TaskEnd, TaskEnds,
};
pub use path::{MAX_PATH, Path, Paths};
pub use same::all_same;
pub use shelf::{CallKind, Shelf, ShelfFault};
pub use sink::{Failed, Sink, write_whole};
pub use text::{Names, Text, copy_names, same_names};
pub use value::{Items, MAX_LEVELS, MAX_UNITS, Value, copy_values};
pub use word::{Word, Words};

/// The allocator had no memory left. A refused call leaves its objects as they were.
pub type NoMemory = std::alloc::AllocError;
