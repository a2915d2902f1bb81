//! The wire form of a Patricia tree, as definitions and laws: what tree bytes mean, and the one
//! tight encoding of a set of keys.
//!
//! `patricia_tree` is the library to use. It depends on this crate.
#![tactic(auto)]

pub mod error;
pub mod examples;
pub mod laws;
pub mod siblings;

pub use error::DecodeError;
