//! What changes the nodes of a tree: inserts, removals and splits. And copies of them.
//!
//! `patricia_tree` is the library to use. It depends on this crate.
#![tactic(auto)]

mod copying;
mod ends;
mod insertion;
mod pruning;
mod removal;
mod splitting;

pub use copying::{copy, copy_value};
pub use ends::{remove_first, remove_last};
pub use insertion::{insert, insert_along, insert_new_along};
pub use pruning::Pruning;
pub use removal::{remove, remove_along};
pub use splitting::split;
