//! The apps of a script by their names, and tables of names.
#![tactic(auto)]

mod apps;
mod name_table;

pub use apps::Apps;
pub use name_table::NameTable;
