//! Walks over the nodes of a tree, in key order: whole ones, those over the common prefixes of a
//! key and under a prefix, and cursors, which own a tree and lend its values one at a time. Two
//! trees are compared by a walk over both.
//!
//! `patricia_tree` is the library to use. It depends on this crate.
#![tactic(auto)]

pub mod along;
pub mod cursor;
mod cursor_state;
pub mod equality;
pub mod first;
mod held_tree;
pub mod into_walk;
pub mod last;
pub mod longest;
pub mod near;
mod progress;
pub mod range;
pub mod reach;
pub mod under;
pub mod value_cursor;
mod value_progress;
pub mod value_walk;
mod waiting;
pub mod walk;
