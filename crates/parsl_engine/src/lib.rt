//! The commands of the program.
#![tactic(auto)]

pub mod exit;
mod output;
mod run;
pub mod script;
mod top;
mod words;

pub use dependency_graph::{Monitor, Settlement};
pub use kernel_core::Ledger;
pub use run::{PartEnd, RunEnd, run_alone, run_attempt};
pub use script::{ScriptFault, ScriptRefusal};
pub use top::{parsl_top, plain_top, run_top};
pub use words::{Command, Order};
