//! What a call waits for, its arguments once that has settled, and the graph of the callbacks that wait.
#![tactic(auto)]

mod callback;
mod callback_table;
mod counting;
mod deep;
mod distinct_paths;
mod graph;
mod inputs;
mod matching;
mod monitor;
mod outcomes;
mod path_table;
mod readiness;
mod resolved;
mod rows;
#[cfg(test)]
mod tests;
mod to_do;

pub use callback::Callback;
pub use deep::are_deep;
pub use graph::Graph;
pub use inputs::inputs_of;
pub use matching::is_resolved;
pub use monitor::{Monitor, Settlement};
pub use outcomes::Outcomes;
pub use path_table::PathTable;
pub use readiness::{Readiness, readiness_of};
pub use resolved::resolve;
