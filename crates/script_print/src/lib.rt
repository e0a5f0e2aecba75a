//! The canonical text of a script.
#![tactic(auto)]

mod definition;
mod expression;
mod indent;
mod parts;
mod statement;
#[cfg(test)]
mod tests;

pub use definition::{print, print_app};
