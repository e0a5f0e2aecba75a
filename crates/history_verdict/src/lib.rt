//! The verdict on a log, by a plain program: the laws as tests, each of one entry against the entries before it.
#![tactic(auto)]

mod laws;
mod reads;
mod rows;
#[cfg(test)]
mod tests;
pub mod verdict;
