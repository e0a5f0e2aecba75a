//! Tests of walks, with the wants that the language gives them.
#![tactic(auto)]

#[cfg(test)]
mod walks;
