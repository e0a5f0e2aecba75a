//! Text that grows: bytes, numbers, quoted texts and paths.
#![tactic(auto)]

#[cfg(test)]
mod tests;
mod writer;

pub use writer::Writer;
