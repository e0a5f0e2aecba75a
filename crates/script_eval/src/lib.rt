//! The sequential evaluation of a script.
#![tactic(auto)]

mod evaluation;
mod evaluator;
mod group;
mod losses;
mod state;
mod walking;

pub use evaluation::{EvalFault, evaluate};
pub use losses::Losses;
