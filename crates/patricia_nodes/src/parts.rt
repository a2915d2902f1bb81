//! What a tree is made of.

use crate::arena::NodeArena;
use std::alloc::Global;

/// The parts of a tree: the value of the empty key, the nodes of the other keys, and how many keys
/// these have.
#[derive(Drop)]
pub struct TreeParts<V> {
    pub alloc: Global,
    pub value: Option<V>,
    pub arena: NodeArena<V>,
    pub count: usize,
}
