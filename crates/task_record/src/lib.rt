//! What a run keeps of a task: its call, its state, and what its attempts cost.
#![tactic(auto)]

mod record;
pub mod status;
#[cfg(test)]
mod tests;

pub use record::TaskRecord;
pub use status::Status;
