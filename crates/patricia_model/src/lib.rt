//! A Patricia tree without its representation: how a key meets a label, and laws over siblings and
//! over trees.
//!
//! `patricia_tree` is the library to use. It depends on this crate.
#![tactic(auto)]

pub mod label_cmp;
pub mod laws;
