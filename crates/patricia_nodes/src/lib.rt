//! The nodes of a tree in one vector: links, look-ups, room and growth, loans of values,
//! and nodes that are unlinked or merged. And a count of steps.
//!
//! `patricia_tree` is the library to use. It depends on this crate.
#![tactic(auto)]

pub mod arena;
pub mod link;
pub mod parts;
pub mod path;
pub mod steps;

pub use steps::Steps;
