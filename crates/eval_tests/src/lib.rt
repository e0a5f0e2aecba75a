//! Tests of bodies, with the values and the exceptions that the language gives them.
#![tactic(auto)]

#[cfg(test)]
mod bodies;
#[cfg(test)]
mod built_ins;
#[cfg(test)]
mod expressions;
#[cfg(test)]
mod limits;
#[cfg(test)]
mod shown;
