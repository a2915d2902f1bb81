//! A tree that stands for a finite map, its walks and iterators, and a count of steps.
//!
//! `patricia_tree` is the library to use. It depends on this crate.
#![tactic(auto)]

pub mod elements;
pub mod entries;
pub mod prefixes;
pub mod ranges;
pub mod tree;

pub use patricia_distance::is_within;
pub use patricia_keys::keys;
pub use patricia_model::laws;
pub use patricia_nodes::{Steps, steps};
pub use patricia_walks::{
    along, cursor, into_walk, near, range, under, value_cursor, value_walk, walk,
};
pub use patricia_wire::{examples as wire_examples, laws as wire_laws};
