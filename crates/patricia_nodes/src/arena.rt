//! The nodes of a tree in one vector, each with its first child and its next sibling.
ghost use Rattle.std.specs.Prelude.{◌≡◌, ◌+◌, ◌<◌, ◌≤◌, ◌++◌, ◌∷◌, [], None, length};
ghost use Rattle.patricia_store.specs.Internal.Labels.{label_room};
ghost use Rattle.patricia_store.specs.Internal.Nodes.{Node, IsLink, KeepsRoom};
ghost use Rattle.patricia_nodes.specs.Internal.NodeVecs.{ReadsNode};
ghost use Rattle.patricia_nodes.specs.Internal.Plans.{IsWellFormed, linked, siblings_of};
ghost use Rattle.patricia_nodes.specs.Internal.Writes.{Frees, Relinks, LinkRefWithin, IsWithin};
ghost use Rattle.patricia_model.specs.Siblings.{end};

mod lending;
mod merging;
pub mod node_vec;
mod order;
mod relocation;
mod room;
pub mod seek;

use crate::arena::node_vec::NodeVec;
use crate::arena::seek::LinkRef;
use crate::link::{Link, NodeId};
pub use relocation::DEPTH_FIRST;
use std::alloc::Global;
use thiserror::Error;

/// Memory ran out before anything was changed. The value is handed back.
#[derive(Debug, Drop, Error)]
#[error("out of memory")]
pub struct Refused<V> {
    pub value: V,
}

/// Nodes, the first of the top siblings, and the first of those that are free for use.
///
/// The free nodes are linked by `sibling`. The fields are for the crates below `patricia_core`
/// alone. The calls ask for `IsWellFormed`, so whoever writes to a field has to prove that it still
/// holds.
#[derive(Drop)]
pub struct NodeArena<V> {
    pub nodes: NodeVec<V>,
    pub root: Link,
    pub free: Link,
    // how many nodes were made or freed since all were relocated: how far they are out of order
    pub edits: usize,
}

impl<V: Drop> NodeArena<V> {
    /// No node. Does not allocate.
    pub fn new(alloc: Global) -> NodeArena<V>
        ensures whole { IsWellFormed result }
        ensures siblings { siblings_of result ≡ end }
        ensures none_free { result.free ≡ None }
    {
        NodeArena {
            nodes: NodeVec::new(alloc),
            root: Link::none(),
            free: Link::none(),
            edits: 0,
        }
    }

    /// How many nodes the vector has, used or free.
    pub fn node_count(&self) -> usize
        ensures { result ≡ length self.now.nodes.items }
    {
        self.nodes.len()
    }

    /// Drops all nodes.
    pub fn clear(&mut self)
        ensures whole { IsWellFormed self.new }
        ensures siblings { siblings_of self.new ≡ end }
        ensures none { length self.new.nodes.items ≡ 0 }
    {
        self.nodes.clear();
        self.root = Link::none();
        self.free = Link::none();
        self.edits = 0;
    }

    /// Takes a node out, and returns its value. Its place in the vector holds the number of the
    /// next free one, so that nothing is asked for. That the nodes are whole then is for the caller
    /// to prove.
    pub fn release(&mut self, id: NodeId) -> Option<V>
        requires there { id < length self.old.nodes.items }
        requires free { IsWithin self.old.free (length self.old.nodes.items) }
        ensures frees { (n : Node V) × Frees self.old self.new id n × (result ≡ n.value) }
        ensures capacity { self.new.nodes.capacity ≡ self.old.nodes.capacity }
        ensures room { self.old.nodes.room ≤ self.new.nodes.room }
    {
        // for the proof alone: there are no more nodes than links can say
        let _few = self.nodes.len();
        let next = self.free;
        self.free = Link::some(id);
        self.edits = self.edits.saturating_add(1);
        let value = self.nodes.replace_contents(id, &[], Link::none(), None);
        self.nodes.set_sibling(id, next);
        value
    }

    /// Moves a node behind the last of another vector, with another sibling. What it leaves is
    /// free. Does not allocate.
    pub fn move_node(&mut self, id: NodeId, to: &mut NodeVec<V>, sibling: Link)
        requires there { id < length self.old.nodes.items }
        requires free { IsWithin self.old.free (length self.old.nodes.items) }
        requires sibling { IsLink sibling }
        requires nodes { length to.old.items < to.old.capacity }
        requires bytes { ReadsNode self.old.nodes id
            (λ n. label_room (length n.label) ≤ to.old.room) }
        ensures moves { (n : Node V) × Frees self.old self.new id n
            × (to.new.items ≡ to.old.items ++ linked n.label n.value n.child sibling ∷ []) }
        ensures capacity { to.new.capacity ≡ to.old.capacity }
        ensures bytes { ReadsNode self.old.nodes id
            (λ n. to.old.room ≤ to.new.room + label_room (length n.label)) }
        ensures kept { self.old.nodes.room ≤ self.new.nodes.room }
    {
        let child = self.nodes.child(id);
        let value = self.nodes.replace_value(id, None);
        to.push_reserved(self.nodes.label(id), value, child, sibling);
        let _none = self.release(id);
    }

    /// Writes a number to a link. That the nodes are whole then is for the caller to prove.
    pub fn relink(&mut self, link_ref: LinkRef, to: Link)
        requires there { LinkRefWithin link_ref (length self.old.nodes.items) }
        requires within { IsWithin to (length self.old.nodes.items) }
        ensures relinks { Relinks self.old self.new link_ref to }
        ensures free { self.new.free ≡ self.old.free }
        ensures len { length self.new.nodes.items ≡ length self.old.nodes.items }
        ensures room { KeepsRoom self.old.nodes self.new.nodes }
    {
        match link_ref {
            LinkRef::Root => self.root = to,
            LinkRef::Child(id) => self.nodes.set_child(id, to),
            LinkRef::Sibling(id, _) => self.nodes.set_sibling(id, to),
        }
    }
}
