//! Key kinds: byte strings, texts and 16-bit units, as lists of whole items.
//!
//! `patricia_tree` is the library to use. It depends on this crate.
#![tactic(auto)]

pub mod keys;

pub use keys::{BorrowedBytes, Bytes};
