//! The canonical texts of a script's apps, by their numbers.
#![tactic(auto)]

#[cfg(test)]
mod tests;
mod texts;

pub use texts::AppTexts;
