//! Each entry of a legal log has a line in the text of the log, and the log is read back from the report.
#![tactic(auto)]

pub mod lines;
mod ranges;
mod read_back;

pub use ranges::in_range;
pub use read_back::reports_are_read_back;
