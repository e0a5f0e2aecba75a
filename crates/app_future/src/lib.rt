//! The futures of a run: what an AppFuture and a DataFuture name, and the table that knows their outcomes.
#![tactic(auto)]

mod future;
mod table;
#[cfg(test)]
mod tests;

pub use future::{AppFuture, DataFuture};
pub use table::FutureTable;
