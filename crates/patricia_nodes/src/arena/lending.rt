//! The node of a key, and a loan of its value.
ghost use Rattle.std.specs.Prelude.{◌≡◌, ◌≢◌, ◌<◌, [], None, MatchOption, length};
ghost use Rattle.std.specs.Borrow.{sem};
ghost use Rattle.std.specs.Option.{option_copied_mut};
ghost use Rattle.std.specs.FinMap as map;
ghost use Rattle.patricia_keys.specs.Keys.{key_cmp};
ghost use Rattle.patricia_model.specs.Siblings.{IsCanonical};
ghost use Rattle.patricia_nodes.specs.Internal.Plans.{IsWellFormed, siblings_of, entries_of};
ghost use Rattle.patricia_nodes.specs.Internal.Loans.{HasValueNode, lends_value, value_of};

use crate::arena::NodeArena;
use crate::link::NodeId;
use patricia_keys::{BorrowedBytes, Bytes};

impl<V> NodeArena<V> {
    /// The node that has the value of a nonempty key.
    pub fn find<Q: BorrowedBytes>(&self, key: Q) -> Option<NodeId>
        requires whole { IsWellFormed self.now }
        requires siblings { IsCanonical Q.Owned.item (siblings_of self.now) }
        requires nonempty { Q.key key ≢ [] }
        ensures { MatchOption result (map.find key_cmp (Q.key key) (entries_of self.now) ≡ None)
            (HasValueNode Q.Owned.item self.now (Q.key key)) }
    {
        match self.seek(key).here() {
            Some(id) if self.nodes.value(id).is_some() => Some(id),
            _ => None,
        }
    }

    /// Lends the value of a node.
    pub fn value_mut(&mut self, id: NodeId) -> Option<&mut V>
        requires { id < length self.old.nodes.items }
        ensures* writes { sem 𝓛 (lends_value V.row self.entry id result) }
        ensures value { option_copied_mut result ≡ value_of self.old id }
    {
        self.nodes.value_mut(id)
    }
}
