//! The machine that reads a script token by token. Its state is what has been read.
#![tactic(auto)]

pub mod block_state;
pub mod expression_state;
pub mod script_state;
pub mod verdict;
