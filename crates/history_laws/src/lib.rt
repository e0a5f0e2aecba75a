//! The laws of histories: what a legal and complete log is, by the sequential evaluation of its script.
#![tactic(auto)]

mod table;
mod verdict;

pub use table::{Expected, MainEvent, Retries, RetryCost, Table};
pub use verdict::{Breach, Law};
