//! Plain values as compact JSON: each value within the limits has one encoding, and no other bytes are read.
//!
//! A number is a JSON number, a text a string, a list an array, nothing `null`, and a file the object
//! `{"content":..,"name":..}` of two strings in this order.
#![tactic(auto)]

mod held;
mod reader;
#[cfg(test)]
mod tests;
mod writer;

pub use held::is_held;
pub use reader::{DecodeFault, decode, file_of, read_json, text_of, texts_of, value_of, values_of};
pub use writer::{encode, file_json, json_of, text_json, texts_json, values_json};
