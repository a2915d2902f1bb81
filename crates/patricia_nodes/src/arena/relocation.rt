//! Nodes that are moved to another vector.
//!
//! Siblings lie side by side, and what is below a node behind its siblings, so that a look-up reads
//! few pages. What waits stands in the new vector, so nothing else is asked for.
ghost use Rattle.std.specs.Prelude.{◌≡◌, ◌+◌, ◌≤◌, ◌++◌, [], None, length};
ghost use Rattle.patricia_nodes.specs.Internal.Plans.{Plan, head, siblings_in, size, IsSound};
ghost use Rattle.patricia_nodes.specs.Internal.Growth.{IsLaid, AreTopSiblings, TakesBelow};
ghost use Rattle.patricia_nodes.specs.Internal.Growth.{TakesSiblings, tops, laid};
ghost use Rattle.patricia_nodes.specs.Internal.Growth.{numbered_siblings, top_bytes, bytes_below};
ghost use Rattle.patricia_nodes.specs.Internal.Writes.{IsWithin};
ghost use Rattle.patricia_nodes.specs.Internal.Relocation.{WaitsFrom, MovesFrom};

use crate::arena::NodeArena;
use crate::arena::node_vec::NodeVec;
use crate::link::{Link, NodeId};

/// How many levels deep nodes are laid depth first. What lies deeper is laid level by level, so
/// that the call stack has a bound.
pub const DEPTH_FIRST: u32 = 64;

impl<V: Drop> NodeArena<V> {
    // Moves siblings behind the last of some new nodes, each with the old number of its first
    // child, and returns the new number of the first of them. What they leave is free.
    fn relocate_siblings(&mut self, first: Link, to: &mut NodeVec<V>) -> Link
        requires siblings { (w : Plan V) × AreTopSiblings self.old.nodes.items first w
            × (length to.old.items + length (tops w) ≤ to.old.capacity)
            × (top_bytes w ≤ to.old.room) }
        requires free { IsWithin self.old.free (length self.old.nodes.items) }
        ensures taken { (w : Plan V) → AreTopSiblings self.old.nodes.items first w
            → TakesSiblings self.old self.new w }
        ensures laid { (w : Plan V) → AreTopSiblings self.old.nodes.items first w
            → to.new.items ≡ to.old.items ++ laid (length to.old.items) w }
        ensures first { (w : Plan V) → AreTopSiblings self.old.nodes.items first w
            → result ≡ head (numbered_siblings (length to.old.items) w) }
        ensures capacity { to.new.capacity ≡ to.old.capacity }
        ensures room { (w : Plan V) → AreTopSiblings self.old.nodes.items first w
            → to.old.room ≤ to.new.room + top_bytes w }
        ensures free { IsWithin self.new.free (length self.new.nodes.items) }
        ensures kept { self.old.nodes.room ≤ self.new.nodes.room }
    {
        // for the proof alone: there are no more nodes than links can say
        let _few = to.capacity();
        let start = to.len();
        let mut at = first;
        while let Some(id) = at.get() {
            at = self.nodes.sibling(id);
            let sibling = match at.get() {
                None => Link::none(),
                Some(_) => Link::some(NodeId::new(to.len() + 1)),
            };
            self.move_node(id, to, sibling);
        }
        match first.get() {
            None => Link::none(),
            Some(_) => Link::some(NodeId::new(start)),
        }
    }

    // Moves what is below the nodes of a new vector from one on behind them, what is below each of
    // them before what is below the next. They have the numbers that their children have here. What
    // lies more than `depth` levels below them is moved level by level.
    fn relocate_below(&mut self, to: &mut NodeVec<V>, start: usize, depth: u32)
        requires waits { WaitsFrom self.old start to.old }
        requires free { IsWithin self.old.free (length self.old.nodes.items) }
        ensures moved { MovesFrom self.old self.new start to.old to.new }
        ensures free { IsWithin self.new.free (length self.new.nodes.items) }
        ensures longer { length to.old.items ≤ length to.new.items }
        ensures capacity { to.new.capacity ≡ to.old.capacity }
        ensures kept { self.old.nodes.room ≤ self.new.nodes.room }
    {
        let mut end = to.len();
        let mut i = start;
        while i < end {
            let below = to.len();
            let id = NodeId::new(i);
            let child = to.child(id);
            let first = self.relocate_siblings(child, to);
            to.set_child(id, first);
            i += 1;
            if depth == 0 {
                end = to.len();
            } else {
                self.relocate_below(to, below, depth - 1);
            }
        }
    }

    /// Moves what is below the nodes of a new vector behind them, siblings side by side, depth
    /// first. They have the numbers that their children have here. What is moved is free here.
    pub fn relocate_descendants(&mut self, to: &mut NodeVec<V>)
        requires laid { (w : Plan V) × IsLaid self.old.nodes.items to.old.items w
            × (size w ≤ to.old.capacity) × (bytes_below w ≤ to.old.room) }
        requires free { IsWithin self.old.free (length self.old.nodes.items) }
        ensures taken { (w : Plan V) → IsLaid self.old.nodes.items to.old.items w
            → TakesBelow self.old self.new w }
        ensures laid { (w : Plan V) → IsLaid self.old.nodes.items to.old.items w
            → (q : Plan V) × IsSound to.new.items (head (numbered_siblings 0 w)) None q []
            × (siblings_in q ≡ siblings_in w) × (size q ≡ size w) }
        ensures capacity { to.new.capacity ≡ to.old.capacity }
        ensures kept { self.old.nodes.room ≤ self.new.nodes.room }
    {
        self.relocate_below(to, 0, DEPTH_FIRST);
    }
}
