//! A script with the programs of its bodies.
#![tactic(auto)]

mod compiled;

pub use compiled::CompiledScript;
