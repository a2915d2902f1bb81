//! The nodes of a tree in little memory: a head of 14 bytes for each, which is all that a look-up
//! reads of most nodes, a body with the value, and the bytes of all labels in one vector.
//!
//! `patricia_tree` is the library to use. It depends on this crate.
#![tactic(auto)]

mod body;
mod draft;
pub mod examples;
mod head;
mod interleave;
mod labels;
mod laying;
mod memory;
mod order;
mod packed;
pub mod store;

pub use labels::label_room;
pub use order::moved_link;
pub use store::Store;
