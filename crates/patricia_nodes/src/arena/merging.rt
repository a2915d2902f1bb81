//! Nodes that are unlinked, and nodes that are merged with their only child.
ghost use Rattle.std.specs.Prelude.{◌≡◌, ◌≤◌, MatchOption};
ghost use Rattle.patricia_nodes.specs.Internal.NodeVecs.{HasJoinedRoom};
ghost use Rattle.patricia_model.specs.Internal.Removals.{width};
ghost use Rattle.patricia_nodes.specs.Internal.Plans.{Plan, IsPlan, siblings_in};
ghost use Rattle.patricia_nodes.specs.Internal.Merges.{HasLeafAt, Unlinks, HasLone, Absorbs};
ghost use Rattle.patricia_nodes.specs.Internal.Merges.{IsPair, HasNodeAt, LeftAlone};

use crate::arena::NodeArena;
use crate::arena::seek::LinkRef;
use crate::link::{Link, NodeId};
use patricia_keys::Bytes;

impl<V: Drop> NodeArena<V> {
    /// Takes a node without children out of its place, and returns its value.
    pub fn unlink(&mut self, link_ref: LinkRef, id: NodeId) -> Option<V>
        requires { HasLeafAt self.old link_ref id }
        ensures unlinks { Unlinks self.old self.new link_ref id result }
        ensures room { self.old.nodes.room ≤ self.new.nodes.room }
    {
        let sibling = self.nodes.sibling(id);
        let value = self.release(id);
        self.relink(link_ref, sibling);
        value
    }

    /// Merges a node with its only child under their joined label, and returns its own value. Does
    /// not allocate.
    pub fn merge_only_child(&mut self, upper: NodeId, lower: NodeId) -> Option<V>
        requires lone { HasLone self.old upper lower }
        requires room { HasJoinedRoom self.old.nodes self.old.nodes.room upper lower }
        ensures { Absorbs self.old self.new upper lower result }
    {
        let child = self.nodes.child(lower);
        let value = self.nodes.replace_value(lower, None);
        let old = self.nodes.join_labels(upper, lower, child, value);
        let _none = self.release(lower);
        old
    }

    // The numbers of two siblings, if they are just two.
    fn exactly_two(&self, first: Link) -> Option<(NodeId, NodeId)>
        requires { (p : Plan V) × IsPlan self.now.nodes.items first p }
        ensures { (p : Plan V) → IsPlan self.now.nodes.items first p
            → MatchOption result (width (siblings_in p) ≡ 2 → ⊥) (λ two. IsPair p two.0 two.1) }
    {
        let Some(first) = first.get() else {
            return None;
        };
        let Some(second) = self.nodes.sibling(first).get() else {
            return None;
        };
        match self.nodes.sibling(second).get() {
            None => Some((first, second)),
            Some(_) => None,
        }
    }

    /// The node above, and its other child, where it has no value and just two children.
    pub fn would_merge<K: Bytes>(&self, link_ref: LinkRef, id: NodeId) -> Option<(NodeId, NodeId)>
        requires { HasNodeAt K.item self.now link_ref id }
        ensures { LeftAlone K.item self.now link_ref id result }
    {
        let Some(upper) = link_ref.above() else {
            return None;
        };
        if self.nodes.value(upper).is_some() {
            return None;
        }
        let Some(children) = self.exactly_two(self.nodes.child(upper)) else {
            return None;
        };
        if children.0.index() == id.index() {
            Some((upper, children.1))
        } else {
            Some((upper, children.0))
        }
    }
}
