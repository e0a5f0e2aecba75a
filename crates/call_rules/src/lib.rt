//! The rule of a call as one equation on the tasks of an evaluation, and that the sequential evaluation obeys it.
#![tactic(auto)]

pub mod ruled;
