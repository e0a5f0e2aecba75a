//! Bodies run: what a plain app's body gives, and the walks of main and of joins, which wait for the
//! answers to their requests.
#![tactic(auto)]

mod answers;
mod built_ins;
mod comparisons;
mod ending;
mod expression;
mod files;
mod frame;
mod indexing;
mod interpreter;
mod limits;
mod lists;
mod numbers;
mod operand;
mod operators;
mod plain_app;
mod position;
mod running;
mod texts;
mod variable;
mod waits;
mod walker;

pub use plain_app::{apply, end_alone};
pub use running::Want;
pub use walker::{Reply, Walker};
