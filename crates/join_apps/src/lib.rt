//! The bodies of joins run, each call answered by its future at once, and the outcomes of joins by those of
//! the futures that they gave.
#![tactic(auto)]

mod body;
mod joined;

pub use body::{BodyFault, Calls, JoinBody, JoinCall, run_body};
pub use joined::{awaited_of, join_outcome};
