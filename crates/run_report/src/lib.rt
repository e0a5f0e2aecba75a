//! The text of values, exceptions and tasks, the report before its log, and the whole report.
#![tactic(auto)]

pub mod lines;
mod read_back;
#[cfg(test)]
mod tests;
pub mod value;
mod whole;

pub use lines::head;
pub use read_back::logs_are_found;
pub use whole::report;
