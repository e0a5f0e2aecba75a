//! Reads scripts and prints them.
#![tactic(auto)]

mod lexer;
pub mod parse;
mod piece;
mod printing;

pub use printing::print;
