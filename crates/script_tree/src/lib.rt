//! The tree of a script, its tokens, and the definitions of its texts, its canonical text and its
//! static rules.
#![tactic(auto)]

pub mod body_kind;
pub mod built_ins;
pub mod checked;
pub mod fault;
pub mod script;
pub mod token;
pub mod tree;

pub use body_kind::BodyKind;
pub use fault::{Rule, SyntaxFault};
