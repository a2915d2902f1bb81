//! A tree that a cursor owns, and who holds the value that it lent last.
ghost use Rattle.std.specs.Prelude.{◌≡◌, ◌≢◌, ◌<◌, ◌↔◌, MatchOption, ℕ, Some, IsTrue, length};
ghost use Rattle.std.specs.Borrow.{sem};
ghost use Rattle.std.specs.Option.{option_copied_mut, option_map};
ghost use Rattle.patricia_nodes.specs.Internal.NodeVecs.{ReadsNode};
ghost use Rattle.patricia_walks.specs.declared.held_tree.ValueSlot.TheVariants.{OfEmptyKey, OfNode};
ghost use Rattle.patricia_walks.specs.Internal.HeldTrees.{IsHeld, held_last};

use patricia_keys::Bytes;
use patricia_nodes::arena::node_vec::NodeVec;
use patricia_nodes::link::{Link, NodeId};
use patricia_nodes::parts::TreeParts;

/// Who holds a value: the tree, for the empty key, or a node.
#[derive(Clone, Copy)]
pub enum ValueSlot {
    OfEmptyKey,
    OfNode(NodeId),
}

/// A tree, and who holds the value that was lent last.
#[derive(Drop)]
pub struct HeldTree<V> {
    pub parts: TreeParts<V>,
    // who holds the value that was lent last
    pub last: Option<ValueSlot>,
}

/// Who holds the value of a node, where it has one.
pub fn held_by<V>(nodes: &NodeVec<V>, id: NodeId) -> Option<ValueSlot>
    requires { id < length nodes.now.items }
    ensures { ReadsNode nodes.now id (λ n. result ≡ option_map (λ _. OfNode id) n.value) }
{
    match nodes.value(id) {
        Some(_) => Some(ValueSlot::OfNode(id)),
        None => None,
    }
}

impl<V> HeldTree<V> {
    ghost use Rattle.patricia_walks.specs.Internal.Lends.{lends_held};

    /// Who holds the value of the empty key, where it has one.
    pub fn root_value_slot(&self) -> Option<ValueSlot>
        ensures { result ≡ option_map (λ _. OfEmptyKey) self.now.parts.value }
    {
        match &self.parts.value {
            Some(_) => Some(ValueSlot::OfEmptyKey),
            None => None,
        }
    }

    /// The first of the top siblings.
    pub fn root(&self) -> Link
        ensures { result ≡ self.now.parts.arena.root }
    {
        self.parts.arena.root
    }

    // Whether the value that was lent last is that of the empty key.
    fn is_on_top(&self) -> bool
        ensures { IsTrue result ↔ (self.now.last ≡ Some OfEmptyKey) }
    {
        match &self.last {
            Some(ValueSlot::OfEmptyKey) => true,
            _ => false,
        }
    }

    // The node that holds the value that was lent last.
    fn node(&self) -> Option<NodeId>
        ensures { MatchOption result ((id : ℕ) → self.now.last ≢ Some (OfNode id))
            (λ id. self.now.last ≡ Some (OfNode id)) }
    {
        match &self.last {
            Some(ValueSlot::OfNode(id)) => Some(*id),
            _ => None,
        }
    }

    /// Lends the value that was lent last.
    pub fn value<K: Bytes>(&mut self) -> Option<&mut V>
        requires { IsHeld K.item self.old }
        ensures* writes { sem 𝓛 (lends_held V.row self.entry result) }
        ensures value { option_copied_mut result ≡ held_last self.old self.old.last }
    {
        if self.is_on_top() {
            let parts = &mut self.parts;
            return parts.value.as_mut();
        }
        match self.node() {
            Some(id) => {
                let parts = &mut self.parts;
                parts.arena.value_mut(id)
            }
            None => None,
        }
    }
}
