//! Reads a script from its tokens, one token a step.
#![tactic(auto)]

pub mod blocks;
pub mod definitions;
mod expressions;
mod frames;
mod lists;
mod operands;
mod operators;
mod posts;
mod trees;
