//! The JSON of a tree that is written as bytes and values: an array of two arrays, the bytes as
//! numbers and then the values.
#![tactic(auto)]

mod json;

pub use json::{JsonError, pair_from_json, pair_to_json};
