//! What scripts mean: bodies, inputs, the rule of a call and the sequential evaluation.
#![tactic(auto)]

pub mod walk;

pub use walk::{Answer, Request};
