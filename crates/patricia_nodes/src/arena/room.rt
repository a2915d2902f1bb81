//! Room for new nodes, and nodes that are relocated for their order.
//!
//! The nodes stay in their vector, which the allocator extends where it can. Beside it a relocation
//! asks for eight bytes a node: the order, and the place of each node.
ghost use Rattle.std.specs.Prelude.{◌≡◌, ◌<◌, ◌≤◌, None, IsTrue, OnOk, OnErr, length};
ghost use Rattle.patricia_nodes.specs.Internal.NodeVecs.{HasJoinedRoom};
ghost use Rattle.patricia_nodes.specs.Internal.Plans.{IsWellFormed, siblings_of};
ghost use Rattle.patricia_nodes.specs.Internal.Writes.{FreeAtLeast, HasRoomFor, KeepsRoomFor};
ghost use Rattle.patricia_nodes.specs.Internal.Writes.{Reuses, Stays};

use crate::arena::NodeArena;
use crate::arena::node_vec::moved_link;
use crate::arena::order::inverse;
use crate::link::{Link, NodeId};
use std::alloc::{AllocError, Global};

// The fewest nodes that are relocated for their order alone.
const FEWEST_TO_RELOCATE: usize = 4096;

impl<V: Drop> NodeArena<V> {
    // How many nodes are free, where two are enough.
    fn free_nodes(&self) -> usize
        requires { IsWellFormed self.now }
        ensures few { result ≤ 2 }
        ensures free { FreeAtLeast self.now result }
    {
        match self.free.get() {
            None => 0,
            Some(id) => match self.nodes.sibling(id).get() {
                None => 1,
                Some(_) => 2,
            },
        }
    }

    /// Whether there is room for two more nodes and so many bytes of labels.
    pub fn has_room(&self, bytes: usize) -> bool
        requires { IsWellFormed self.now }
        ensures { IsTrue result → HasRoomFor self.now 2 bytes }
    {
        self.nodes.capacity() - self.nodes.len() + self.free_nodes() >= 2
            && self.nodes.room() >= bytes
    }

    // Whether so many nodes were made or freed since all were relocated that look-ups gain by
    // relocating them. Few nodes are near one another wherever they lie.
    fn is_worn(&self) -> bool {
        let len = self.nodes.len();
        len >= FEWEST_TO_RELOCATE && self.edits >= len
    }

    /// Whether there is room for two more nodes and so many bytes of labels, and no gain in
    /// relocating the nodes that are there.
    pub fn is_ready(&self, bytes: usize) -> bool
        requires { IsWellFormed self.now }
        ensures { IsTrue result → HasRoomFor self.now 2 bytes }
    {
        self.has_room(bytes) && !self.is_worn()
    }

    // Lays the nodes depth first, where they are, and drops those that are free. Labels stay where
    // they are.
    fn relocate_nodes(&mut self, alloc: Global) -> Result<(), AllocError>
        requires { IsWellFormed self.old }
        ensures whole { IsWellFormed self.new }
        ensures siblings { siblings_of self.new ≡ siblings_of self.old }
        ensures none_free { OnOk result (self.new.free ≡ None) }
        ensures fewer { length self.new.nodes.items ≤ length self.old.nodes.items }
        ensures room { KeepsRoomFor self.old self.new 2 }
        ensures unchanged { OnErr result (self.new ≡ self.old) }
    {
        let (order, used) = self.depth_first_order(alloc)?;
        let places = inverse(alloc, order.as_slice())?;
        self.root = moved_link(places.as_slice(), self.root);
        let settled = self.nodes.len().saturating_sub(self.edits);
        self.nodes.rearrange(order, places, used, settled);
        self.nodes.keep_first(used);
        self.free = Link::none();
        Ok(())
    }

    // The same, and lays their labels in the same order, where memory for that is there.
    fn relocate(&mut self, alloc: Global) -> Result<(), AllocError>
        requires { IsWellFormed self.old }
        ensures whole { IsWellFormed self.new }
        ensures siblings { siblings_of self.new ≡ siblings_of self.old }
        ensures none_free { OnOk result (self.new.free ≡ None) }
        ensures fewer { length self.new.nodes.items ≤ length self.old.nodes.items }
        ensures room { KeepsRoomFor self.old self.new 2 }
        ensures unchanged { OnErr result (self.new ≡ self.old) }
    {
        self.relocate_nodes(alloc)?;
        // a refusal leaves the labels where they are
        let _laid = self.nodes.lay_labels();
        Ok(())
    }

    // Relocates the nodes where they are many and memory is there for a list of their numbers. Else
    // they stay where they are, and wait for as many changes as before.
    fn try_relocate(&mut self, alloc: Global)
        requires { IsWellFormed self.old }
        ensures whole { IsWellFormed self.new }
        ensures siblings { siblings_of self.new ≡ siblings_of self.old }
        ensures none_free { self.old.free ≡ None → self.new.free ≡ None }
        ensures fewer { length self.new.nodes.items ≤ length self.old.nodes.items }
        ensures room { KeepsRoomFor self.old self.new 2 }
    {
        if self.nodes.len() >= FEWEST_TO_RELOCATE {
            // a refusal changes nothing
            let _relocated = self.relocate(alloc);
        }
        self.edits = 0;
    }

    /// Makes room for two more nodes and so many bytes of labels, and leaves each node at its
    /// number.
    pub fn extend(&mut self, bytes: usize) -> Result<(), AllocError>
        requires { IsWellFormed self.old }
        ensures stays { Stays self.old self.new }
        ensures room { OnOk result (HasRoomFor self.new 2 bytes) }
    {
        let more = if self.has_room(0) {
            0
        } else {
            self.nodes.len() / 2 + 4
        };
        self.nodes.reserve(more, bytes)
    }

    /// Makes room for two more nodes and so many bytes of labels. Where there was none for the
    /// nodes, or there is a gain, it relocates them as `settle` does, and they may have other
    /// numbers then.
    pub fn reserve_two(&mut self, alloc: Global, bytes: usize) -> Result<(), AllocError>
        requires whole { IsWellFormed self.old }
        ensures whole { IsWellFormed self.new }
        ensures siblings { siblings_of self.new ≡ siblings_of self.old }
        ensures room { OnOk result (HasRoomFor self.new 2 bytes) }
        ensures reuses { Reuses self.old self.new }
        ensures unchanged { OnErr result (Stays self.old self.new) }
    {
        let grows = !self.has_room(0);
        self.extend(bytes)?;
        if grows || self.is_worn() {
            self.settle(alloc);
        }
        Ok(())
    }

    /// Makes room for the labels of two nodes as one, and leaves each node as it is.
    pub fn reserve_joined(&mut self, upper: NodeId, lower: NodeId) -> Result<(), AllocError>
        requires upper { upper < length self.old.nodes.items }
        requires lower { lower < length self.old.nodes.items }
        ensures stays { Stays self.old self.new }
        ensures room { OnOk result
            (HasJoinedRoom self.new.nodes self.new.nodes.room upper lower) }
    {
        self.nodes.reserve_joined(upper, lower)
    }

    /// Relocates the nodes for their order, where an eighth of them or more were made or freed
    /// since they were last relocated: a copy that gets few entries more is in order as it is.
    /// Without memory for that they stay where they are, and it is no error.
    pub fn settle(&mut self, alloc: Global)
        requires whole { IsWellFormed self.old }
        ensures whole { IsWellFormed self.new }
        ensures siblings { siblings_of self.new ≡ siblings_of self.old }
        ensures none_free { self.old.free ≡ None → self.new.free ≡ None }
        ensures fewer { length self.new.nodes.items ≤ length self.old.nodes.items }
        ensures room { KeepsRoomFor self.old self.new 2 }
    {
        if self.edits >= self.nodes.len() / 8 {
            self.try_relocate(alloc);
        }
    }

    /// Relocates the nodes for their order, and leaves their labels where they are: those of keys
    /// that were inserted in order lie in it. Without memory for that the nodes stay where they
    /// are, and it is no error.
    pub fn settle_nodes(&mut self, alloc: Global)
        requires whole { IsWellFormed self.old }
        ensures whole { IsWellFormed self.new }
        ensures siblings { siblings_of self.new ≡ siblings_of self.old }
        ensures none_free { self.old.free ≡ None → self.new.free ≡ None }
        ensures fewer { length self.new.nodes.items ≤ length self.old.nodes.items }
        ensures room { KeepsRoomFor self.old self.new 2 }
    {
        if self.nodes.len() >= FEWEST_TO_RELOCATE {
            // a refusal changes nothing
            let _relocated = self.relocate_nodes(alloc);
        }
        self.edits = 0;
    }
}
