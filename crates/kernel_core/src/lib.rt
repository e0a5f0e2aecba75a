//! The kernel: tasks, main and the one history as a machine whose every turn adds its entries.
#![tactic(auto)]

mod agenda;
mod any_turns;
mod beginning;
mod callbacks;
mod job;
mod jobs;
mod joins;
mod kernel;
mod ledger;
mod main_acts;
mod main_turn;
mod main_walk;
mod memo;
mod parts;
mod reading;
mod run_state;
mod task;
mod task_acts;
mod task_turns;
mod turns;

pub use any_turns::{Turn, take_turns};
pub use job::{Done, Job};
pub use kernel::{Kernel, NotOpened, Opening};
pub use kernel_model::{Delivered, Refusal, ScriptTurn};
pub use ledger::Ledger;
