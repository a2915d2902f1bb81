//! A cursor that owns a tree and lends its values one at a time, in the order of their keys.
ghost use Rattle.std.specs.Prelude.{◌≡◌, ◌≢◌, ◌↔◌, [], Some, None, IfOk, OnOk, OnErr, IsTrue};
ghost use Rattle.std.specs.Borrow.{sem};
ghost use Rattle.std.specs.Option.{option_copied_mut, option_map};
ghost use Rattle.patricia_model.specs.Cursors.{last_value, next_key, stepped};
ghost use Rattle.patricia_model.specs.Siblings.{IsCanonical};
ghost use Rattle.patricia_model.specs.Trees.{map_of, IsTree};
ghost use Rattle.patricia_model.specs.Walks.{values_of};
ghost use Rattle.patricia_nodes.specs.Internal.Plans.{IsWellFormed, siblings_of};
ghost use Rattle.patricia_walks.specs.Internal.Holders.{holders};
ghost use Rattle.patricia_walks.specs.Internal.ValuePositions.{IsValuePosition};
ghost use Rattle.patricia_walks.specs.Internal.ValueCursorStates.{spot_of, holders_left, Moves};
ghost use Rattle.patricia_walks.specs.Internal.ValueCursorStates.{MoveIsRefused};

use crate::held_tree::{HeldTree, ValueSlot};
use crate::value_progress::ValueProgress;
use patricia_keys::Bytes;
use patricia_nodes::parts::TreeParts;
use std::alloc::AllocError;
use std::marker::{Model, PhantomData};

// A tree, and how far a walk over its values has come.
#[derive(Drop)]
struct ValueCursorState<V> {
    tree: HeldTree<V>,
    // who holds the value of the empty key, while it is due
    pending: Option<ValueSlot>,
    front: ValueProgress,
}

impl<V> ValueCursorState<V> {
    // The state of a cursor before the first of all values.
    fn new<K: Bytes>(parts: TreeParts<V>) -> ValueCursorState<V>
        requires whole { IsWellFormed parts.arena }
        requires siblings { IsCanonical K.item (siblings_of parts.arena) }
        ensures tree { result.tree.parts ≡ parts }
        ensures position { IsValuePosition (spot_of result) }
        ensures left { holders_left result ≡ values_of (holders parts.value parts.arena) }
        ensures last { result.tree.last ≡ None }
    {
        let alloc = parts.alloc;
        let tree = HeldTree { parts, last: None };
        let pending = tree.root_value_slot();
        let front = ValueProgress::new(alloc, tree.root());
        ValueCursorState {
            tree,
            pending,
            front,
        }
    }

    // Advances to the next value, and returns whether there is one.
    fn advance(&mut self) -> Result<bool, AllocError>
        requires { IsValuePosition (spot_of self.old) }
        ensures position { IsValuePosition (spot_of self.new) }
        ensures goes { IfOk result (λ found. Moves self.old found self.new) }
        ensures refused { OnErr result (MoveIsRefused self.old self.new) }
        ensures tree { self.new.tree.parts ≡ self.old.tree.parts }
    {
        if let Some(holder) = self.pending.take() {
            self.tree.last = Some(holder);
            return Ok(true);
        }
        let Some(id) = self.front.next_node(&self.tree.parts.arena.nodes)? else {
            return Ok(false);
        };
        self.tree.last = Some(ValueSlot::OfNode(id));
        Ok(true)
    }
}

/// A cursor over the values of all entries.
#[derive(Drop)]
pub struct ValueCursor<K: Bytes, V> {
    state: ValueCursorState<V>,
    kind: PhantomData<K>,
}

impl<K: Bytes, V> Model for ValueCursor<K, V> {
    ghost use Rattle.std.specs.Prelude.{[]};
    ghost use Rattle.patricia_model.specs.Cursors.{CursorView};
    ghost use Rattle.patricia_model.specs.Internal.Codes.{cursor_view_code};
    ghost use Rattle.patricia_walks.specs.Internal.HeldTrees.{standing};
    ghost use Rattle.patricia_walks.specs.Internal.ValueCursorStates.{IsValueCursorState};

    ghost Value = { CursorView V };

    ghost coded = { cursor_view_code V.code };

    ghost view = { λ c. standing c.state.tree [] };

    ghost invariant = { λ c. IsValueCursorState K.item c.state };
}

impl<K: Bytes, V: Drop> ValueCursor<K, V> {
    ghost use Rattle.patricia_walks.specs.Internal.Lends.{value_cursor_lends_last};

    /// Makes a cursor over a tree. Does not allocate.
    pub fn new(parts: TreeParts<V>) -> Self
        requires whole { IsWellFormed parts.arena }
        requires tree { IsTree K.item (siblings_of parts.arena) parts.count }
        ensures { result ≡ record {
          map = map_of parts.value (siblings_of parts.arena);
          prefix = [];
          last = None;
        } }
    {
        ValueCursor {
            state: ValueCursorState::new::<K>(parts),
            kind: PhantomData,
        }
    }

    /// Advances to the next value, and returns whether there is one. The error is out of memory.
    pub fn advance(&mut self) -> Result<bool, AllocError>
        ensures found { IfOk result (λ found. IsTrue found ↔ (next_key self.old ≢ None)) }
        ensures stepped { OnOk result (self.new ≡ stepped self.old) }
        ensures unchanged { OnErr result (self.new ≡ self.old) }
        ensures err_only_if_left { OnErr result (next_key self.old ≢ None) }
    {
        self.state.advance()
    }

    /// Lends the value that it advanced to last, or returns `None` where it has not advanced yet.
    pub fn value(&mut self) -> Option<&mut V>
        ensures* writes { sem 𝓛 (value_cursor_lends_last K.row V.row K.Bytes self.entry result) }
        ensures value { option_copied_mut result ≡ last_value self.old }
    {
        self.state.tree.value::<K>()
    }
}

/// The tree that a cursor walked over: a function, so that no method of a cursor names nodes.
pub fn into_parts<K: Bytes, V: Drop>(cursor: ValueCursor<K, V>) -> TreeParts<V>
    ensures whole { IsWellFormed result.arena }
    ensures tree { IsTree K.item (siblings_of result.arena) result.count }
    ensures map { map_of result.value (siblings_of result.arena) ≡ cursor.map }
{
    let ValueCursor { state, .. } = cursor;
    state.tree.parts
}
