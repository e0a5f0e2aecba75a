//! How many units a run stores, and the limits of a run.
#![tactic(auto)]

#[cfg(test)]
mod tests;
mod units;

pub use units::{Limit, MAX_STORED, MAX_TASKS, call_units, outcome_units};
