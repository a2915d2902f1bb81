//! A walk over the values of nodes in one vector, in the order of their keys.
ghost use Rattle.std.specs.Prelude.{◌≡◌, ◌++◌};
ghost use Rattle.std.specs.Option.{option_copied};
ghost use Rattle.patricia_model.specs.Siblings.{own, IsCanonical};
ghost use Rattle.patricia_model.specs.Walks.{YieldsOrErr, values_of};
ghost use Rattle.patricia_nodes.specs.Internal.Plans.{IsWellFormed, siblings_of, entries_of};

use crate::value_progress::ValueProgress;
use patricia_keys::Bytes;
use patricia_nodes::arena::NodeArena;
use std::alloc::{AllocError, Global};
use std::marker::Model;

/// What a walk over values has left, in the order of their keys.
#[derive(Drop)]
pub struct ValueWalk<'a, V> {
    arena: &'a NodeArena<V>,
    // the value of the empty key, while it is due
    pending: Option<&'a V>,
    front: ValueProgress,
}

impl<'a, V> Model for ValueWalk<'a, V> {
    ghost use Rattle.std.specs.Prelude.{◌++◌, List};
    ghost use Rattle.std.specs.Option.{option_copied};
    ghost use Rattle.patricia_model.specs.Siblings.{own};
    ghost use Rattle.patricia_model.specs.Walks.{values_of};
    ghost use Rattle.patricia_walks.specs.Internal.ValuePositions.{IsFrontOf, values_ahead};

    ghost Value = { List V };

    ghost view = { λ w.
        values_of (own (option_copied w.pending)) ++ values_ahead w.arena.now.nodes.items w.front };

    ghost invariant = { λ w. IsFrontOf w.arena.now.nodes.items w.front };
}

impl<'a, V> ValueWalk<'a, V> {
    /// A walk over the empty key's value and those of the nodes. Making it does not allocate.
    pub fn new<K: Bytes>(alloc: Global, pending: Option<&'a V>, arena: &'a NodeArena<V>) -> Self
        requires whole { IsWellFormed arena.now }
        requires siblings { IsCanonical K.item (siblings_of arena.now) }
        ensures { result ≡ values_of (own (option_copied pending.entry) ++ entries_of arena.now) }
    {
        ValueWalk {
            arena,
            pending,
            front: ValueProgress::new(alloc, arena.root),
        }
    }

    /// The next value.
    pub fn next_value(&mut self) -> Option<Result<&'a V, AllocError>>
        ensures { YieldsOrErr (λ v. v.now) self.old result self.new }
    {
        if let Some(value) = self.pending.take() {
            return Some(Ok(value));
        }
        let nodes = &self.arena.nodes;
        match self.front.next_node(nodes) {
            Ok(Some(id)) => Some(Ok(nodes.value(id)?)),
            Ok(None) => None,
            Err(error) => {
                self.front.finish();
                Some(Err(error))
            }
        }
    }
}
