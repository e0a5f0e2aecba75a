//! Bodies with their variables in slots.
#![tactic(auto)]

pub mod code;
mod expression;
mod resolve;
mod slot_names;
mod statement;

pub use code::{Code, Program, Simple, Step};
pub use resolve::program;
