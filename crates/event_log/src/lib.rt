//! The log of a run: its entries, and their text.
#![tactic(auto)]

mod cursor;
pub mod entry;
mod print;
mod read;
#[cfg(test)]
mod reading_tests;
#[cfg(test)]
mod tests;
mod words;

pub use entry::{BlockState, Entries, Entry};
pub use print::{print_log, write_log};
pub use read::{LogFault, MAX_ENTRIES, logs_are_read, read_log};
