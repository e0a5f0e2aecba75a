//! The static rules of scripts.
#![tactic(auto)]

mod checker;
mod checking;
mod definition;
mod expression;
mod fault;
mod law;
mod outer;
mod rules;
mod statement;

pub use checking::{CheckFault, check};
pub use law::marks_are_tokens;
