//! The memo: what calls of cached apps gave, by the app, the arguments and the names of the files.
#![tactic(auto)]

mod key;
mod memo;
pub mod saved;
#[cfg(test)]
mod tests;

pub use key::{Key, key_json};
pub use memo::Memo;
pub use saved::Saved;
